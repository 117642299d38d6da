// The common log: entries of 18 bytes, what each says, and which a log read would take.
#![tactic(auto)]

ghost use Rattle.std.specs.Prelude.{true, ◌≡◌, ℕ, ◌+◌, ◌*◌, ◌≤◌, ◌<◌, eqb, length, replicate};
ghost use Rattle.sets.specs.Sets.{least};
ghost use Rattle.table.specs.Table.{max_sites};
ghost use Rattle.protocol.specs.Recovery.{entries};
ghost use Rattle.entries.specs.Entries.{entry_size, entry_of, write_entry, log_to, one_of, in_range_of, good_to, cells};

use sets::Set;

// One proposal in the log: the site that made it, its round, NC and C.
#[derive(Clone, Copy)]
pub struct Entry {
    pub site: usize,
    pub round: usize,
    pub nc: Set,
    pub c: Set,
}

impl Entry {
    // The bytes of an entry.
    pub const BYTES: usize = 18;
    // The last round that the log takes.
    pub const ROUNDS: usize = 32;
}

// The cells of a table of counts, one for each site and round: 11 times 32.
const CELLS: usize = 352;

// The site of the k-th entry.
pub fn site_of(log: &[u8], k: usize) -> usize
    requires { k * entry_size + entry_size ≤ length log.now }
    ensures { result ≡ (entry_of log.now k).site }
{
    wire::get::<u8>(log, k * Entry::BYTES) as usize
}

// The round of the k-th entry.
pub fn round_of(log: &[u8], k: usize) -> usize
    requires { k * entry_size + entry_size ≤ length log.now }
    ensures { result ≡ (entry_of log.now k).round }
{
    wire::get::<u8>(log, k * Entry::BYTES + 1) as usize
}

// NC of the k-th entry.
pub fn nc_of(log: &[u8], k: usize) -> Set
    requires { k * entry_size + entry_size ≤ length log.now }
    ensures { result ≡ (entry_of log.now k).nc }
{
    Set::read(log, k * Entry::BYTES + 2)
}

// C of the k-th entry.
pub fn c_of(log: &[u8], k: usize) -> Set
    requires { k * entry_size + entry_size ≤ length log.now }
    ensures { result ≡ (entry_of log.now k).c }
{
    Set::read(log, k * Entry::BYTES + 10)
}

// The k-th entry.
pub fn read_entry(log: &[u8], k: usize) -> Entry
    requires { k * entry_size + entry_size ≤ length log.now }
    ensures { result ≡ entry_of log.now k }
{
    Entry {
        site: site_of(log, k),
        round: round_of(log, k),
        nc: nc_of(log, k),
        c: c_of(log, k),
    }
}

// An entry is written as the k-th.
pub fn write_entry(log: &mut [u8], k: usize, entry: Entry)
    requires { (k * entry_size + entry_size ≤ length log.old) × (entry.site < 256) × (entry.round < 256) }
    ensures { log.new ≡ write_entry log.old k entry }
{
    let at = k * Entry::BYTES;
    wire::put(log, at, entry.site as u8);
    wire::put(log, at + 1, entry.round as u8);
    entry.nc.write(log, at + 2);
    entry.c.write(log, at + 10);
}

// 1 where the k-th entry is one of a site in a round, else 0.
fn one_of(log: &[u8], k: usize, site: usize, round: usize) -> usize
    requires { k * entry_size + entry_size ≤ length log.now }
    ensures { result ≡ one_of log.now k site round }
{
    if round_of(log, k) != round {
        return 0;
    }
    if site_of(log, k) != site {
        return 0;
    }
    1
}

// How many of the first k entries a site has in a round.
pub fn entries_of(log: &[u8], k: usize, site: usize, round: usize) -> usize
    requires { k * entry_size ≤ length log.now }
    ensures { result ≡ entries site round (log_to log.now k) }
{
    let mut all: usize = 0;
    for i in 0..k {
        all += one_of(log, i, site, round);
    }
    all
}

// The first of the first k entries that is of a round; k where none is, since it says from where to look.
pub fn first_of(log: &[u8], k: usize, round: usize) -> usize
    requires { k * entry_size ≤ length log.now }
    ensures { result ≡ least k (λ (i : ℕ). eqb (entry_of log.now i).round round) }
{
    (0..k).find(|i| round_of(log, *i) == round).unwrap_or(k)
}

// Whether site, round and sets of an entry are in range.
pub fn in_range(entry: Entry, sites: usize, commands: usize) -> bool
    ensures { result ≡ in_range_of sites commands entry }
{
    (entry.site < sites)
        & (1 <= entry.round)
        & (entry.round <= Entry::ROUNDS)
        & entry.nc.within(commands)
        & entry.c.within(commands)
}

// Whether a log read would take each of the first k entries: in range, and no third of its site and round, which are counted.
fn judge_counting(log: &[u8], k: usize, sites: usize, commands: usize, counts: &mut [u8]) -> bool
    requires { (k * entry_size ≤ length log.now) × (sites ≤ max_sites) × (counts.old ≡ replicate cells 0) }
    ensures { result ≡ good_to log.now sites commands k }
{
    for i in 0..k {
        let entry = read_entry(log, i);
        if !in_range(entry, sites, commands) {
            return false;
        }
        let cell = entry.site * Entry::ROUNDS + (entry.round - 1);
        let before = counts[cell];
        if before >= 2 {
            return false;
        }
        counts[cell] = before + 1;
    }
    true
}

// Whether a log read would take each of the first k entries.
pub fn judge_prefix(log: &[u8], k: usize, sites: usize, commands: usize) -> bool
    requires { (k * entry_size ≤ length log.now) × (sites ≤ max_sites) }
    ensures { result ≡ good_to log.now sites commands k }
{
    let mut counts = [0u8; CELLS];
    judge_counting(log, k, sites, commands, &mut counts)
}
