// A fast delivery: a pending command that enough sites have acknowledged in the site's round is delivered at once.
#![tactic(auto)]

ghost use Rattle.std.specs.Prelude.{true, List, ◌≡◌, ◌≤◌, ◌<◌, leb, length};
ghost use Rattle.theory.specs.Sets.{one, count};
ghost use Rattle.sets.specs.Sets.{capacity};
ghost use Rattle.table.specs.Table.{max_sites, is_good};
ghost use Rattle.register.specs.declared.Command.{Command};
ghost use Rattle.commands.specs.Book.{commands_of};
ghost use Rattle.protocol.specs.System.{verdict};
ghost use Rattle.protocol.specs.Site as protocol;
ghost use Rattle.system.specs.Dash.{dash};
ghost use Rattle.layout.specs.Layout.{site_size, site_rounds, head_of, heard_of, view};
ghost use Rattle.layout.specs.Good.{Good};
ghost use Rattle.fast.specs.Fast.{FastDelivered};

use commands::Book;
use layout::Site;
use refusals::{Refusal, Verdict};
use table::SiteTable;

fn one(test: bool) -> usize
    ensures { (result ≡ one test) × (result ≤ 1) }
{
    if test { 1 } else { 0 }
}

// Whether so many senders have acknowledged a command in the site's round. Of those that there are not nothing was heard.
// They are looked at one by one, and no more than are needed.
fn has_senders(site: &[u8], header: Site, m: usize, needed: usize) -> bool
    requires { (length site.now ≡ site_size) × (header ≡ head_of site.now) × (1 ≤ header.round) × (header.round ≤ site_rounds) × (m < capacity) × (1 ≤ needed) }
    ensures { result ≡ leb needed (count max_sites (λ j. heard_of site.now j header.round m)) }
{
    let round = header.round as usize;
    if round > header.span as usize {
        return false;
    }
    let mut n = 0;
    for sender in 0..SiteTable::MAX_SITES {
        let set = layout::heard(site, sender, round);
        n += one(set.holds(m));
        if n >= needed {
            return true;
        }
    }
    false
}

// Whether a command may be delivered fast, in either phase, and else the refusal.
fn judge(site: &[u8], header: Site, table: SiteTable, commands: usize, m: usize) -> Verdict
    requires { Good table.sites commands site.now × (header ≡ head_of site.now) × (is_good table ≡ true) × (m < capacity) }
    ensures { (book : List Command) → length book ≡ commands → result ≡ verdict (protocol.for_fast_delivery (dash table book) m (view table book site.now)) }
{
    let open = header.pending.without(header.fast);
    if !open.holds(m) {
        return Err(Refusal::Disabled);
    }
    if !has_senders(site, header, m, table.n_ack()) {
        return Err(Refusal::Disabled);
    }
    let recorded = header.deliveries as usize;
    if recorded >= commands {
        return Err(Refusal::Full);
    }
    Ok(())
}

// Command m of the book is delivered fast, or the step is refused.
pub fn fast_delivery(site: &mut [u8], table: SiteTable, book: &Book, m: usize) -> Verdict
    requires { Good table.sites book.now.len site.old × (is_good table ≡ true) × (m < book.now.len) }
    ensures { FastDelivered table (commands_of book.now.bytes.now) m site.old result site.new }
{
    let header = Site::read(&site[..]);
    judge(&site[..], header, table, book.len, m)?;
    let recorded = header.deliveries;
    deliver::deliver(site, book.bytes, book.places, recorded as usize, m);
    header.fast.with(m).write(site, Site::FAST);
    wire::put(site, Site::COUNT, recorded + 1);
    Ok(())
}
