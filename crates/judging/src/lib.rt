// What every call judges of what it is lent, in document 01's order: sizes (9), the site table (2), the book (1), the form of a log or message (3), the site (4).
#![tactic(auto)]

ghost use Rattle.std.specs.Prelude.{◌≡◌, ◌&&◌, ◌≤◌, leb, length};
ghost use Rattle.commands.specs.Book.{max_commands};
ghost use Rattle.layout.specs.Layout.{site_size, head_of};
ghost use Rattle.protocol.specs.System.{verdict};
ghost use Rattle.judging.specs.Judging.{for_marked, for_book, for_rules, for_lent, for_site, for_site_and_message, for_site_and_log, rules_of, judged_as, places_after};

use entries::Entry;
use layout::Site;
use refusals::{Refusal, Verdict};
use table::{Rules, SiteTable};

// Every log position that a site's bytes can hold is at most this.
const ANY_POSITION: usize = 65535;

// Whether bytes begin with a site table, its mask included, that is within its limits, or refusal 2.
pub fn judge_table(table: &[u8]) -> Verdict
    ensures { result ≡ verdict (for_marked table.now) }
{
    SiteTable::read_marked(table)?;
    Ok(())
}

// Whether bytes are a book, or refusal 1.
pub fn judge_book(book: &[u8]) -> Verdict
    ensures { result ≡ verdict (for_book book.now) }
{
    let mut places = [0u64; commands::MAX_COMMANDS];
    let Some(_) = commands::note(book, &mut places) else {
        return Err(Refusal::Book);
    };
    Ok(())
}

// Sizes, the site table and the book: 9, 2 or 1. Where sizes and table are right, the places of the book's commands are noted.
fn judge_rules(sized: bool, table: &[u8], book: &[u8], places: &mut [u64]) -> Result<Rules, Refusal>
    requires { max_commands ≤ length places.old }
    ensures { (result ≡ judged_as (verdict (for_rules table.now book.now sized)) (rules_of table.now book.now))
        × (places.new ≡ places_after table.now book.now sized places.old) }
{
    if !sized {
        return Err(Refusal::Size);
    }
    let table = SiteTable::read(table)?;
    let Some(commands) = commands::note(book, places) else {
        return Err(Refusal::Book);
    };
    Ok(Rules { table, commands })
}

// Then the form of what else is lent, and the site, its log position among so many entries: 3 or 4.
fn judge_lent(
    enough: bool,
    formed: bool,
    entries: usize,
    table: &[u8],
    book: &[u8],
    site: &[u8],
    places: &mut [u64],
) -> Result<Rules, Refusal>
    requires { max_commands ≤ length places.old }
    ensures { (result ≡ judged_as (verdict (for_lent table.now book.now enough formed entries site.now)) (rules_of table.now book.now))
        × (places.new ≡ places_after table.now book.now (enough && leb site_size (length site.now)) places.old) }
{
    let sized = enough & (site.len() >= Site::SIZE);
    let rules = judge_rules(sized, table, book, places)?;
    if !formed {
        return Err(Refusal::Form);
    }
    let sites = rules.table.sites;
    if !lent::judge(&site[..Site::SIZE], sites, rules.commands, entries) {
        return Err(Refusal::Range);
    }
    Ok(rules)
}

// What a call that is lent a site judges, the one function above with what such a call leaves out: 9, 2, 1 or 4; `enough`: its other buffers are long enough.
pub fn judge_site(
    enough: bool,
    table: &[u8],
    book: &[u8],
    site: &[u8],
    places: &mut [u64],
) -> Result<Rules, Refusal>
    requires { max_commands ≤ length places.old }
    ensures { (result ≡ judged_as (verdict (for_site table.now book.now enough site.now)) (rules_of table.now book.now))
        × (places.new ≡ places_after table.now book.now (enough && leb site_size (length site.now)) places.old) }
{
    judge_lent(enough, true, ANY_POSITION, table, book, site, places)
}

// What a call that is lent a site and a message judges: 9, 2, 1, 3 or 4; `formed`: the message has the form of one.
pub fn judge_site_and_message(
    formed: bool,
    table: &[u8],
    book: &[u8],
    site: &[u8],
    places: &mut [u64],
) -> Result<Rules, Refusal>
    requires { max_commands ≤ length places.old }
    ensures { (result ≡ judged_as (verdict (for_site_and_message table.now book.now formed site.now)) (rules_of table.now book.now))
        × (places.new ≡ places_after table.now book.now (leb site_size (length site.now)) places.old) }
{
    judge_lent(true, formed, ANY_POSITION, table, book, site, places)
}

// What a call that is lent a site and the log judges: 9, 2, 1, 3 or 4.
pub fn judge_site_and_log(
    enough: bool,
    table: &[u8],
    book: &[u8],
    site: &[u8],
    log: &[u8],
    places: &mut [u64],
) -> Result<Rules, Refusal>
    requires { max_commands ≤ length places.old }
    ensures { (result ≡ judged_as (verdict (for_site_and_log table.now book.now enough site.now log.now)) (rules_of table.now book.now))
        × (places.new ≡ places_after table.now book.now (enough && leb site_size (length site.now)) places.old) }
{
    let whole = log.len() % Entry::BYTES == 0;
    let entries = log.len() / Entry::BYTES;
    let rules = judge_lent(enough, whole, entries, table, book, site, places)?;
    let position = position_of(&site[..Site::SIZE]);
    let sites = rules.table.sites;
    if !entries::judge_prefix(log, position, sites, rules.commands) {
        return Err(Refusal::Range);
    }
    Ok(rules)
}

// The log position of a site.
pub fn position_of(site: &[u8]) -> usize
    requires { length site.now ≡ site_size }
    ensures { result ≡ (head_of site.now).position }
{
    let header = Site::read(site);
    header.position as usize
}
