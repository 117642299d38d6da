// The dash register: the four kinds of command, what each does to a bike's reading and dash, and what it answers.
#![tactic(auto)]

ghost use Rattle.std.specs.Prelude.{◌≡◌, ◌+◌, ◌*◌, ◌≤◌, ◌<◌, min, pos, ◌+ℤ◌, ◌-ℤ◌, length};
ghost use Rattle.wire.specs.Wire.{splice};
ghost use Rattle.register.specs.Register.{bikes, max_reading, bike_of, held, change, reply, Within, is_within, Valid};
ghost use Rattle.register.specs.Lent.{bike_size, register_size, bike_bytes, register_of, Executed};

// One command (document 01: one line of a sheet). The operands are those of its row in the table of kinds.
#[derive(Clone, Copy)]
pub enum Command {
    // 01 ADD: the reading rises by km, at most to 999,999
    Add { bike: u8, km: u16 },
    // 02 FIT: dash and reading are set
    Fit { bike: u8, dash: u32, start: u32 },
    // 03 READ: nothing changes
    Read { bike: u8 },
    // 04 TRIM: the reading changes by km, held within 0 to 999,999
    Trim { bike: u8, km: i16 },
}

// What the register holds of one bike.
#[derive(Clone, Copy)]
pub struct Bike {
    pub reading: u32,
    pub dash: u32,
}

impl Bike {
    // The number of bikes.
    pub const COUNT: usize = 32;
    // The greatest reading.
    pub const MAX_READING: u32 = 999999;
    // The bytes that one bike takes in a lent register: its reading, then its dash.
    pub const SIZE: usize = 8;
}

// The bike that a command names.
pub fn bike_of(command: Command) -> u8
    ensures { result ≡ bike_of command }
{
    match command {
        Command::Add { bike, .. }
        | Command::Fit { bike, .. }
        | Command::Read { bike }
        | Command::Trim { bike, .. } => bike,
    }
}

// ADD: the lesser of reading + km and 999,999.
fn added(reading: u32, km: u16) -> u32
    requires { reading ≤ max_reading }
    ensures { result ≡ min (reading + km) max_reading }
{
    let sum = reading + km as u32;
    if sum < Bike::MAX_READING {
        return sum;
    }
    Bike::MAX_READING
}

// TRIM: reading + km, held within 0 to 999,999.
fn trimmed(reading: u32, km: i16) -> u32
    requires { reading ≤ max_reading }
    ensures { (result ≡ held (pos reading +ℤ km)) × (result ≤ max_reading) }
{
    let sum = reading as i32 + km as i32;
    if sum < 0 {
        return 0;
    }
    if sum > Bike::MAX_READING as i32 {
        return Bike::MAX_READING;
    }
    sum as u32
}

// The signed difference of two readings.
fn difference(new: u32, old: u32) -> i32
    requires { (new ≤ max_reading) × (old ≤ max_reading) }
    ensures { result ≡ pos new -ℤ pos old }
{
    new as i32 - old as i32
}

// What a command makes of its bike.
fn changed(command: Command, before: Bike) -> Bike
    requires { before.reading ≤ max_reading }
    ensures { result ≡ change command before }
{
    match command {
        Command::Add { km, .. } => Bike {
            reading: added(before.reading, km),
            dash: before.dash,
        },
        Command::Fit { dash, start, .. } => Bike {
            reading: start,
            dash,
        },
        Command::Read { .. } => before,
        Command::Trim { km, .. } => Bike {
            reading: trimmed(before.reading, km),
            dash: before.dash,
        },
    }
}

// What a command answers, from its bike as it was before.
fn reply_to(command: Command, before: Bike) -> i32
    requires { before.reading ≤ max_reading }
    ensures { result ≡ reply command before }
{
    match command {
        Command::Add { .. } => 0,
        Command::Fit { .. } | Command::Read { .. } => before.reading as i32,
        Command::Trim { km, .. } => difference(trimmed(before.reading, km), before.reading),
    }
}

// What a lent register holds of a bike.
pub fn bike_at(register: &[u8], at: usize, bike: usize) -> Bike
    requires { (at + register_size ≤ length register.now) × (bike < bikes) }
    ensures { result ≡ register_of register.now at bike }
{
    let place = at + Bike::SIZE * bike;
    let reading = wire::get(register, place);
    let dash = wire::get(register, place + 4);
    Bike { reading, dash }
}

// Writes one bike.
fn put_bike(register: &mut [u8], place: usize, bike: Bike)
    requires { place + bike_size ≤ length register.old }
    ensures { register.new ≡ splice register.old place (bike_bytes bike) }
{
    wire::put(register, place, bike.reading);
    wire::put(register, place + 4, bike.dash);
}

// Executes a command on the lent register that starts at a position, and answers.
pub fn execute(register: &mut [u8], at: usize, command: Command) -> i32
    requires { (at + register_size ≤ length register.old) × Within (register_of register.old at) × Valid command }
    ensures { Executed command at register.old register.new result }
{
    let bike = bike_of(command) as usize;
    let before = bike_at(&register[..], at, bike);
    let answer = reply_to(command, before);
    put_bike(register, at + Bike::SIZE * bike, changed(command, before));
    answer
}

// Whether every reading of a lent register is at most 999,999.
pub fn judge(register: &[u8], at: usize) -> bool
    requires { at + register_size ≤ length register.now }
    ensures { result ≡ is_within (register_of register.now at) }
{
    (0..Bike::COUNT).all(|bike| {
        let reading: u32 = wire::get(register, at + Bike::SIZE * bike);
        reading <= Bike::MAX_READING
    })
}
