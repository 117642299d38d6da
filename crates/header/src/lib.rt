// The header of a run: the site table and the book's length, and whether a run's size, header and book are taken.
#![tactic(auto)]

ghost use Rattle.std.specs.Prelude.{◌≡◌, ◌+◌, ◌≤◌, length};
ghost use Rattle.commands.specs.Book.{max_commands};
ghost use Rattle.runs.specs.Run.{header_size, book_size};
ghost use Rattle.header.specs.Header.{judge_run, places_after};

use refusals::Refusal;
use table::{Rules, SiteTable};

// The greatest size of a run in bytes.
pub const MAX_RUN: usize = 60000;
// Where the book's length stands: after the site table with its mask.
const BOOK_SIZE: usize = SiteTable::MARKED_BYTES;
// The bytes of a header. The book starts after it, at byte 6.
pub const HEADER: usize = BOOK_SIZE + 2;

// What the header and the book of a run say: the rules, and where the steps start.
#[derive(Clone, Copy)]
pub struct Run {
    pub rules: Rules,
    pub steps: usize,
}

// The position after the book, where the steps start.
fn book_end(run: &[u8]) -> usize
    requires { header_size ≤ length run.now }
    ensures { result ≡ header_size + book_size run.now }
{
    let size: u16 = wire::get(run, BOOK_SIZE);
    HEADER + size as usize
}

// A run is judged: refusals 9, 2 and 1, in this order. Where size and header are taken, the places of its commands are noted.
pub fn judge_run(run: &[u8], places: &mut [u64]) -> Result<Run, Refusal>
    requires { max_commands ≤ length places.old }
    ensures { (result ≡ judge_run run.now) × (places.new ≡ places_after run.now places.old) }
{
    let n = run.len();
    if n > MAX_RUN {
        return Err(Refusal::Size);
    }
    if n < HEADER {
        return Err(Refusal::Table);
    }
    let table = SiteTable::read_marked(run)?;
    let steps = book_end(run);
    if steps > n {
        return Err(Refusal::Table);
    }
    let Some(commands) = commands::note(&run[HEADER..steps], places) else {
        return Err(Refusal::Book);
    };
    let rules = Rules { table, commands };
    Ok(Run { rules, steps })
}
