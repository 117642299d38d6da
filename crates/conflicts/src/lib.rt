// Which commands of a book conflict: for each command the set of those that conflict with it.
#![tactic(auto)]

ghost use Rattle.std.specs.Prelude.{◌≡◌, ◌*◌, ◌<◌, ◌++◌, length, take, replicate};
ghost use Rattle.sets.specs.Sets.{capacity};
ghost use Rattle.register.specs.Register.{bikes, bike_of};
ghost use Rattle.commands.specs.Book.{max_commands, commands_of, Placed};
ghost use Rattle.conflicts.specs.Conflicts.{conflict_row, conflict_rows, rows_in, joined_of, Gathered, opposed_of};

use commands::Book;
use register::{Bike, Command};
use sets::Set;

// The words for what is noted of a book: the places of its commands, then the rows.
pub const NOTED: usize = 2 * commands::MAX_COMMANDS;

// The sets of a bike: all its commands, its ADDs, its READs.
#[derive(Clone, Copy)]
struct BikeSets {
    all: Set,
    adds: Set,
    reads: Set,
}

// Command k joins the sets of its bike that are for its kind.
fn join(sets: &mut [BikeSets; Bike::COUNT], command: Command, k: usize)
    requires { (bike_of command < bikes) × (k < capacity) }
    ensures { sets.new ≡ joined_of command k sets.old }
{
    let of_bike = &mut sets[register::bike_of(command) as usize];
    of_bike.all = of_bike.all.with(k);
    match command {
        Command::Add { .. } => of_bike.adds = of_bike.adds.with(k),
        Command::Read { .. } => of_bike.reads = of_bike.reads.with(k),
        Command::Fit { .. } | Command::Trim { .. } => {}
    }
}

// All commands join the sets of their bikes.
fn gather(book: &Book, sets: &mut [BikeSets; Bike::COUNT])
    requires { Gathered book.now.bytes.now 0 sets.old }
    ensures { Gathered book.now.bytes.now book.now.len sets.new }
{
    for k in 0..book.len {
        join(sets, book.command(k), k);
    }
}

// The commands of its bike that a command is opposed to: an ADD to all but ADDs, a READ to all but READs, a FIT and a TRIM to all.
fn opposed(sets: &[BikeSets; Bike::COUNT], command: Command) -> Set
    requires { bike_of command < bikes }
    ensures { result ≡ opposed_of sets.now command }
{
    let of_bike = sets[register::bike_of(command) as usize];
    match command {
        Command::Add { .. } => of_bike.all.without(of_bike.adds),
        Command::Read { .. } => of_bike.all.without(of_bike.reads),
        Command::Fit { .. } | Command::Trim { .. } => of_bike.all,
    }
}

// The commands that conflict with the m-th: those that it is opposed to, but itself.
fn row(book: &Book, m: usize, sets: &[BikeSets; Bike::COUNT]) -> Set
    requires { (m < book.now.len) × Gathered book.now.bytes.now book.now.len sets.now }
    ensures { result ≡ conflict_row book.now.bytes.now m }
{
    let itself = Set::empty().with(m);
    opposed(sets, book.command(m)).without(itself)
}

// The rows of the n commands are noted. All rows are empty before, and those past the commands stay so.
fn fill_rows(book: &[u8], n: usize, sets: &[BikeSets; Bike::COUNT], noted: &mut [u64])
    requires { (rows_in noted.old ≡ replicate max_commands 0) × (n ≡ length (commands_of book.now))
        × Placed book.now noted.old × Gathered book.now n sets.now }
    ensures { noted.new ≡ take max_commands noted.old ++ conflict_rows book.now }
{
    for m in 0..n {
        let read = Book {
            bytes: book,
            places: &noted[..],
            len: n,
        };
        let found = row(&read, m, sets);
        found.store(noted, commands::MAX_COMMANDS + m);
    }
}

// The rows of all command numbers are noted, after the places of the n commands. All rows are empty before.
pub fn conflict_rows(book: &[u8], n: usize, noted: &mut [u64])
    requires { (rows_in noted.old ≡ replicate max_commands 0) × (n ≡ length (commands_of book.now)) × Placed book.now noted.old }
    ensures { noted.new ≡ take max_commands noted.old ++ conflict_rows book.now }
{
    let none = Set::empty();
    let mut sets = [BikeSets {
        all: none,
        adds: none,
        reads: none,
    }; Bike::COUNT];
    let read = Book {
        bytes: book,
        places: &noted[..],
        len: n,
    };
    gather(&read, &mut sets);
    fill_rows(book, n, &sets, noted);
}
