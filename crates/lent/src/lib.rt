// A lent site judged byte by byte, and a fresh site written over a lent buffer.
#![tactic(auto)]

ghost use Rattle.std.specs.Prelude.{◌≡◌, List, ◌≤◌, ◌<◌, length};
ghost use Rattle.theory.specs.Sets.{all};
ghost use Rattle.wire.specs.Wire.{read_le};
ghost use Rattle.sets.specs.Sets.{capacity};
ghost use Rattle.table.specs.declared.SiteTable.{SiteTable};
ghost use Rattle.table.specs.Table.{max_sites};
ghost use Rattle.register.specs.declared.Command.{Command};
ghost use Rattle.protocol.specs.Site as protocol;
ghost use Rattle.system.specs.Dash.{dash};
ghost use Rattle.layout.specs.Layout.{site_size, site_rounds, span_place};
ghost use Rattle.layout.specs.Good.{good_head, good_cell, good_heard, good_slot, good_site, Holds};

use layout::Site;
use sets::Set;
use table::SiteTable;

// Whether the numbers of a header are in range, and its sets within the book.
fn judge_header(header: Site, commands: usize) -> bool
    ensures { result ≡ good_head commands header }
{
    let round = header.round as usize;
    let deliveries = header.deliveries as usize;
    let span = header.span as usize;
    let proposal = header.phase.proposal();
    (1 <= round)
        & (round <= Site::ROUNDS)
        & (deliveries <= commands)
        & (deliveries <= Set::CAPACITY)
        & (span <= Site::ROUNDS)
        & header.received.within(commands)
        & header.delivered.within(commands)
        & header.pending.within(commands)
        & header.fast.within(commands)
        & proposal.nc.within(commands)
        & proposal.c.within(commands)
}

// Whether what a sender acknowledged in a round is within the book, and empty where there is no such sender.
fn judge_cell(site: &[u8], sites: usize, commands: usize, sender: usize, round: usize) -> bool
    requires { (length site.now ≡ site_size) × (sender < max_sites) × (1 ≤ round) × (round ≤ site_rounds) }
    ensures { result ≡ good_cell sites commands site.now sender round }
{
    let set = layout::heard(site, sender, round);
    set.within(commands) & ((sender < sites) | set.is_empty())
}

// Whether all sets heard are good.
fn judge_heard(site: &[u8], sites: usize, commands: usize) -> bool
    requires { (length site.now ≡ site_size) × (read_le 2 site.now span_place ≤ site_rounds) }
    ensures { result ≡ good_heard sites commands site.now }
{
    let rounds = wire::get::<u16>(site, Site::SPAN) as usize;
    for sender in 0..SiteTable::MAX_SITES {
        for k in 0..rounds {
            if !judge_cell(site, sites, commands, sender, k + 1) {
                return false;
            }
        }
    }
    true
}

// Whether the k-th place for a delivery, where so many are recorded, holds a command of the book, and nothing where none is recorded.
fn judge_slot(site: &[u8], commands: usize, recorded: usize, k: usize) -> bool
    requires { (length site.now ≡ site_size) × (k < capacity) }
    ensures { result ≡ good_slot commands recorded site.now k }
{
    let place = Site::DELIVERIES + Site::DELIVERY * k;
    let command = wire::get::<u8>(site, place) as usize;
    let answer: u32 = wire::get(site, place + 1);
    (k < recorded) & (command < commands) | (recorded <= k) & (command == 0) & (answer == 0)
}

// Whether all places for a delivery are good.
fn judge_deliveries(site: &[u8], commands: usize, recorded: usize) -> bool
    requires { length site.now ≡ site_size }
    ensures { result ≡ all capacity (good_slot commands recorded site.now) }
{
    (0..Set::CAPACITY).all(|k| judge_slot(site, commands, recorded, k))
}

// Whether lent bytes are a site, for so many sites, commands and log entries.
pub fn judge(site: &[u8], sites: usize, commands: usize, entries: usize) -> bool
    requires { sites ≤ max_sites }
    ensures { result ≡ good_site sites commands entries site.now }
{
    if site.len() != Site::SIZE {
        return false;
    }
    let header = Site::read(site);
    let position = header.position as usize;
    if position > entries {
        return false;
    }
    if !layout::judge_phase(site) {
        return false;
    }
    if !judge_header(header, commands) {
        return false;
    }
    if !judge_heard(site, sites, commands) {
        return false;
    }
    if !register::judge(site, Site::REGISTER) {
        return false;
    }
    let recorded = header.deliveries as usize;
    judge_deliveries(site, commands, recorded)
}

// A fresh site is written: all its bytes are 0 but the first, its round. Nothing was heard, so it has none in the table of sets heard.
pub fn fresh(site: &mut [u8])
    requires { length site.old ≡ site_size }
    ensures { (t : SiteTable) (book : List Command) → Holds t book 0 site.old site.new (protocol.fresh (dash t book)) }
{
    wire::clear(&mut site[..Site::HEARD]);
    wire::put(site, Site::ROUND, 1u8);
}
