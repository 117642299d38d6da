// Bytes to commands and back: the book of document 01, judged, read, found again by place, and written.
#![tactic(auto)]

ghost use Rattle.std.specs.Prelude.{◌≡◌, ◌+◌, ◌≤◌, ◌<◌, ◌∷◌, [], length};
ghost use Rattle.std.proofs.lemmas.List.Edits.{sets};
ghost use Rattle.wire.specs.Wire.{splice};
ghost use Rattle.commands.specs.Book.{max_commands, size_of, read_command, measure_book, commands_of, command_of, Placed, noted_places, encode_command, encode_book};

use register::{Bike, Command};

// A book has at most 64 commands.
pub const MAX_COMMANDS: usize = 64;

// The bytes of a command.
fn size(command: Command) -> usize
    ensures { result ≡ size_of command }
{
    match command {
        Command::Add { bike: _, km: _ } => 4,
        Command::Fit {
            bike: _,
            dash: _,
            start: _,
        } => 10,
        Command::Read { bike: _ } => 2,
        Command::Trim { bike: _, km: _ } => 4,
    }
}

// The command at the front of some bytes, if there is one.
fn read_command(bytes: &[u8]) -> Option<Command>
    ensures { result ≡ read_command bytes.now }
{
    let n = bytes.len();
    if n < 2 {
        return None;
    }
    let kind = bytes[0];
    let bike = bytes[1];
    if bike >= Bike::COUNT as u8 {
        return None;
    }
    match kind {
        1 => {
            if n < 4 {
                return None;
            }
            let km: u16 = wire::get(bytes, 2);
            Some(Command::Add { bike, km })
        }
        2 => {
            if n < 10 {
                return None;
            }
            let dash: u32 = wire::get(bytes, 2);
            let start: u32 = wire::get(bytes, 6);
            if start > Bike::MAX_READING {
                return None;
            }
            Some(Command::Fit { bike, dash, start })
        }
        3 => Some(Command::Read { bike }),
        4 => {
            if n < 4 {
                return None;
            }
            let km: i16 = wire::get(bytes, 2);
            Some(Command::Trim { bike, km })
        }
        _ => None,
    }
}

// How many commands a book has; none where it is refused. The places of the commands that are read are noted.
pub fn note(book: &[u8], places: &mut [u64]) -> Option<usize>
    requires { max_commands ≤ length places.old }
    ensures { (result ≡ measure_book book.now) × (places.new ≡ sets places.old 0 (noted_places book.now)) }
{
    let n = book.len();
    let mut at: usize = 0;
    let mut k: usize = 0;
    // A cursor, not an index: where the next command starts is known once this one is read.
    while at < n {
        if k == MAX_COMMANDS {
            return None;
        }
        let command = read_command(&book[at..])?;
        places[k] = at as u64;
        at += size(command);
        k += 1;
    }
    Some(k)
}

// The number of commands; 0 where the book is refused.
fn count(book: &[u8]) -> usize
    ensures { result ≡ length (commands_of book.now) }
{
    let mut places = [0u64; MAX_COMMANDS];
    note(book, &mut places).unwrap_or(0)
}

// The k-th command, from the noted places. How many commands there are need not be known.
pub fn indexed(book: &[u8], places: &[u64], k: usize) -> Command
    requires { (k < length (commands_of book.now)) × Placed book.now places.now }
    ensures { result ≡ command_of book.now k }
{
    let at = places[k] as usize;
    let Some(command) = read_command(&book[at..]) else {
        return Command::Read { bike: 0 };
    };
    command
}

// A book that was read: its bytes, where each of its commands starts, and how many there are.
#[derive(Clone, Copy)]
pub struct Book<'a> {
    pub bytes: &'a [u8],
    pub places: &'a [u64],
    pub len: usize,
    ghost counted: { len ≡ length (commands_of bytes.now) },
    ghost placed: { Placed bytes.now places.now },
}

impl Book<'_> {
    // The k-th command.
    pub fn command(&self, k: usize) -> Command
        requires { k < self.now.len }
        ensures { result ≡ command_of self.now.bytes.now k }
    {
        indexed(self.bytes, self.places, k)
    }
}

// Kind and bike are written.
fn put_head(out: &mut [u8], at: usize, kind: u8, bike: u8)
    requires { at + 2 ≤ length out.old }
    ensures { out.new ≡ splice out.old at (kind ∷ bike ∷ []) }
{
    out[at] = kind;
    out[at + 1] = bike;
}

// A command is written at a position; the answer is the position after it.
pub fn write_command(out: &mut [u8], at: usize, command: Command) -> usize
    requires { at + size_of command ≤ length out.old }
    ensures { (result ≡ at + size_of command) × (out.new ≡ splice out.old at (encode_command command)) }
{
    match command {
        Command::Add { bike, km } => {
            put_head(out, at, 1, bike);
            wire::put(out, at + 2, km);
            at + 4
        }
        Command::Fit { bike, dash, start } => {
            put_head(out, at, 2, bike);
            wire::put(out, at + 2, dash);
            wire::put(out, at + 6, start);
            at + 10
        }
        Command::Read { bike } => {
            put_head(out, at, 3, bike);
            at + 2
        }
        Command::Trim { bike, km } => {
            put_head(out, at, 4, bike);
            wire::put(out, at + 2, km);
            at + 4
        }
    }
}

// The commands of a book are written at a position; the answer is the position after them.
pub fn write_commands(out: &mut [u8], at: usize, book: &[u8]) -> usize
    requires { at + length (encode_book (commands_of book.now)) ≤ length out.old }
    ensures { (result ≡ at + length (encode_book (commands_of book.now)))
        × (out.new ≡ splice out.old at (encode_book (commands_of book.now))) }
{
    let n = count(book);
    let mut from: usize = 0;
    let mut to = at;
    for _ in 0..n {
        let Some(command) = read_command(&book[from..]) else {
            return to;
        };
        to = write_command(out, to, command);
        from += size(command);
    }
    to
}
