// Steps 08 and 0A: a correct site delivers a command fast, or ends its round.
#![tactic(auto)]

ghost use Rattle.std.specs.Prelude.{◌≡◌, true, List, ℕ};
ghost use Rattle.table.specs.Table.{is_good};
ghost use Rattle.commands.specs.Book.{commands_of};
ghost use Rattle.protocol.specs.World as protocol;
ghost use Rattle.closings.specs.Closings.{GoodSites, KeptLog, Closed};

use commands::Book;
use layout::Site;
use refusals::{Refusal, Verdict};
use rounds::Rounds;
use table::Rules;

// 08: a site delivers a command fast.
pub fn fast_delivery(sites: &mut [u8], rules: Rules, book: &Book, site: u8, command: u8) -> Verdict
    requires { GoodSites rules.table rules.commands sites.old × (is_good rules.table ≡ true) × (book.now.len ≡ rules.commands) }
    ensures { (log : List ℕ) (entries : ℕ) → Closed rules.table (commands_of book.now.bytes.now) (protocol.fast_delivery site command) log entries sites.old result sites.new }
{
    let table = rules.table;
    let i = site as usize;
    let m = command as usize;
    if i >= table.sites {
        return Err(Refusal::Range);
    }
    if m >= rules.commands {
        return Err(Refusal::Range);
    }
    if table.is_faulty(i) {
        return Err(Refusal::Role);
    }
    let from = i * Site::SIZE;
    let to = from + Site::SIZE;
    fast::fast_delivery(&mut sites[from..to], table, book, m)
}

// 0A: a site ends its round, as what is kept of the log decides it.
pub fn round_end(sites: &mut [u8], kept: &Rounds, rules: Rules, book: &Book, site: u8) -> Verdict
    requires { GoodSites rules.table rules.commands sites.old × ((log : List ℕ) × KeptLog rules.table book.now.bytes.now sites.old log kept.now)
        × (is_good rules.table ≡ true) × (book.now.len ≡ rules.commands) }
    ensures { (log : List ℕ) → KeptLog rules.table book.now.bytes.now sites.old log kept.now
        → Closed rules.table (commands_of book.now.bytes.now) (protocol.round_end site) log kept.now.entries sites.old result sites.new }
{
    let table = rules.table;
    let i = site as usize;
    if i >= table.sites {
        return Err(Refusal::Range);
    }
    if table.is_faulty(i) {
        return Err(Refusal::Role);
    }
    let from = i * Site::SIZE;
    let to = from + Site::SIZE;
    let header = Site::read(&sites[from..to]);
    let position = header.position as usize;
    let round = header.round as usize;
    let decision = kept.decision(round, position);
    ending::round_end(&mut sites[from..to], book, decision)
}
