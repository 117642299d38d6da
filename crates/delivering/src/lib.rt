// The calls that deliver at a lent site: a command fast, and the end of a round.
#![tactic(auto)]

ghost use Rattle.std.specs.Prelude.{◌≡◌, true, ◌/◌, ◌≤◌, length};
ghost use Rattle.table.specs.Table.{is_good};
ghost use Rattle.commands.specs.Book.{commands_of};
ghost use Rattle.conflicts.specs.Conflicts.{Noted};
ghost use Rattle.entries.specs.Entries.{entry_size, log_of, good_to};
ghost use Rattle.layout.specs.Layout.{head_of};
ghost use Rattle.layout.specs.Good.{Good};
ghost use Rattle.ending.specs.Ending.{EndedBy};
ghost use Rattle.refusals.specs.Refusals.{code_of};
ghost use Rattle.judging.specs.Outcomes.{outcome};
ghost use Rattle.delivering.specs.Delivering.{fast_delivery_call, round_end_call};

use commands::Book;
use layout::Site;
use refusals::{Refusal, Verdict};
use table::Rules;

// Delivers a command fast.
pub fn fast_delivery(table: &[u8], book: &[u8], site: &mut [u8], command: usize) -> Verdict
    ensures { outcome (code_of result) site.new ≡ fast_delivery_call table.now book.now site.old command }
{
    let mut places = [0u64; commands::MAX_COMMANDS];
    let rules = judging::judge_site(true, table, book, &site[..], &mut places)?;
    if command >= rules.commands {
        return Err(Refusal::Range);
    }
    let book = Book {
        bytes: book,
        places: &places,
        len: rules.commands,
    };
    fast::fast_delivery(&mut site[..Site::SIZE], rules.table, &book, command)
}

// The round ends as the entries that the site has read decide it, or the step is refused.
fn end_round(site: &mut [u8], rules: Rules, book: &[u8], noted: &[u64], log: &[u8]) -> Verdict
    requires { Good rules.table.sites rules.commands site.old × (is_good rules.table ≡ true) × Noted book.now noted.now × (length (commands_of book.now) ≡ rules.commands)
        × ((head_of site.old).position ≤ length log.now / entry_size)
        × (good_to log.now rules.table.sites rules.commands (head_of site.old).position ≡ true) }
    ensures { EndedBy rules.table (commands_of book.now) (log_of log.now) site.old result site.new }
{
    let table = rules.table;
    let header = Site::read(&site[..]);
    let position = header.position as usize;
    let round = header.round as usize;
    let rows = &noted[commands::MAX_COMMANDS..];
    let decision = recovery::decide(log, position, round, table, rows);
    let book = Book {
        bytes: book,
        places: noted,
        len: rules.commands,
    };
    ending::round_end(site, &book, decision)
}

// Ends the round of a waiting site.
pub fn round_end(table: &[u8], book: &[u8], site: &mut [u8], log: &[u8]) -> Verdict
    ensures { outcome (code_of result) site.new ≡ round_end_call table.now book.now site.old log.now }
{
    let mut noted = [0u64; conflicts::NOTED];
    let rules = judging::judge_site_and_log(true, table, book, &site[..], log, &mut noted)?;
    conflicts::conflict_rows(book, rules.commands, &mut noted);
    end_round(&mut site[..Site::SIZE], rules, book, &noted, log)
}
