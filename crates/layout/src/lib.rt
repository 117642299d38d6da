// One site's state in lent bytes at fixed places: a header read as a struct and written field by field, and the sets heard, the register and the deliveries in place.
#![tactic(auto)]

ghost use Rattle.std.specs.Prelude.{◌≡◌, ◌+◌, ◌≤◌, ◌<◌, length};
ghost use Rattle.wire.specs.Wire.{bytes, splice};
ghost use Rattle.sets.specs.Sets.{capacity, read_set};
ghost use Rattle.table.specs.Table.{max_sites};
ghost use Rattle.layout.specs.Layout.{site_size, site_rounds, cell, slot, head_of, phase_from, phase_number, proposal_of, phased, delivery_of, delivery_bytes, delivery_seen, emptied, reached, heard_more};
ghost use Rattle.layout.specs.Good.{good_phase};

use sets::Set;

// What a site proposed.
#[derive(Clone, Copy)]
pub struct Proposal {
    pub nc: Set,
    pub c: Set,
}

// A site is either acknowledging, or waiting with the sets it proposed.
#[derive(Clone, Copy)]
pub enum Phase {
    Acknowledging,
    Waiting(Proposal),
}

impl Phase {
    // The sets that the site waits with, empty while it acknowledges.
    pub fn proposal(self) -> Proposal
        ensures { result ≡ proposal_of self }
    {
        match self {
            Phase::Acknowledging => Proposal {
                nc: Set { bits: 0 },
                c: Set { bits: 0 },
            },
            Phase::Waiting(proposal) => proposal,
        }
    }
}

// The number of a phase, in the bytes of a site and in a status.
impl From<Phase> for u8 {
    ghost from_gives = { λ phase number. number ≡ phase_number phase };

    fn from(phase: Phase) -> u8 {
        match phase {
            Phase::Acknowledging => 0,
            Phase::Waiting(_) => 1,
        }
    }
}

// The header of a site; the sets heard, the register and the deliveries stay in the lent bytes.
#[derive(Clone, Copy)]
pub struct Site {
    pub round: u8,
    pub phase: Phase,
    // the log position: how many entries were read
    pub position: u16,
    // how many deliveries are recorded
    pub deliveries: u16,
    // how many rounds the table of sets heard has rows for
    pub span: u16,
    pub received: Set,
    pub delivered: Set,
    pub pending: Set,
    pub fast: Set,
}

// A command delivered, with the answer that it was given.
#[derive(Clone, Copy)]
pub struct Delivery {
    pub command: u8,
    pub answer: i32,
}

impl Site {
    // The bytes of a site. It is cut out of all sites where it is used: of a part that a call returns, nothing but its length is known.
    pub const SIZE: usize = 3536;
    // Where each field stands. The phase and its sets are written together, by set_phase.
    pub const ROUND: usize = 0;

    const PHASE: usize = 1;

    pub const POSITION: usize = 2;

    pub const COUNT: usize = 4;

    pub const SPAN: usize = 6;

    pub const RECEIVED: usize = 8;

    pub const DELIVERED: usize = 16;

    pub const PENDING: usize = 24;

    pub const FAST: usize = 32;

    const NC: usize = 40;

    const C: usize = 48;

    pub const REGISTER: usize = 56;

    pub const DELIVERIES: usize = 312;
    // The table of sets heard is last: a row for each round up to the span, a set for each of 11 senders. Past its rows a site has no bytes.
    pub const HEARD: usize = 632;
    // The rounds of a site: 1 to 33.
    pub const ROUNDS: usize = 33;
    // The bytes of a row of the table of sets heard.
    pub const ROW: usize = 88;
    // The bytes of a recorded delivery: its command, then its answer.
    pub const DELIVERY: usize = 5;

    // The header that stands in lent bytes.
    pub fn read(site: &[u8]) -> Site
        requires { length site.now ≡ site_size }
        ensures { result ≡ head_of site.now }
    {
        let tag: u8 = wire::get(site, Site::PHASE);
        let nc = Set::read(site, Site::NC);
        let c = Set::read(site, Site::C);
        let phase = phase_of(tag, nc, c);
        let round: u8 = wire::get(site, Site::ROUND);
        let position: u16 = wire::get(site, Site::POSITION);
        let deliveries: u16 = wire::get(site, Site::COUNT);
        let span: u16 = wire::get(site, Site::SPAN);
        let received = Set::read(site, Site::RECEIVED);
        let delivered = Set::read(site, Site::DELIVERED);
        let pending = Set::read(site, Site::PENDING);
        let fast = Set::read(site, Site::FAST);
        Site {
            round,
            phase,
            position,
            deliveries,
            span,
            received,
            delivered,
            pending,
            fast,
        }
    }
}

fn phase_of(tag: u8, nc: Set, c: Set) -> Phase
    ensures { result ≡ phase_from tag nc c }
{
    if tag == 0 {
        return Phase::Acknowledging;
    }
    Phase::Waiting(Proposal { nc, c })
}

// The phase is written: its number and the sets that the site waits with, empty while it acknowledges.
pub fn set_phase(site: &mut [u8], phase: Phase)
    requires { length site.old ≡ site_size }
    ensures { site.new ≡ phased site.old phase }
{
    let proposal = phase.proposal();
    wire::put(site, Site::PHASE, u8::from(phase));
    proposal.nc.write(site, Site::NC);
    proposal.c.write(site, Site::C);
}

// Whether the number of the phase is one, and nothing is proposed while the site acknowledges.
pub fn judge_phase(site: &[u8]) -> bool
    requires { length site.now ≡ site_size }
    ensures { result ≡ good_phase site.now }
{
    let tag: u8 = wire::get(site, Site::PHASE);
    let nc: u64 = wire::get(site, Site::NC);
    let c: u64 = wire::get(site, Site::C);
    (tag == 1) | (tag == 0) & (nc == 0) & (c == 0)
}

// The place of what a sender acknowledged in a round.
fn heard_place(sender: usize, round: usize) -> usize
    requires { (sender < max_sites) × (1 ≤ round) × (round ≤ site_rounds) }
    ensures { (result ≡ cell sender round) × (result + 8 ≤ site_size) }
{
    Site::HEARD + Site::ROW * (round - 1) + Set::BYTES * sender
}

// What a sender acknowledged in a round that there is a row for.
pub fn heard(site: &[u8], sender: usize, round: usize) -> Set
    requires { (length site.now ≡ site_size) × (sender < max_sites) × (1 ≤ round) × (round ≤ site_rounds) }
    ensures { result ≡ read_set site.now (cell sender round) }
{
    Set::read(site, heard_place(sender, round))
}

// The rows of the rounds after one, up to another, are emptied.
fn clear_rows(site: &mut [u8], rows: usize, round: usize)
    requires { (length site.old ≡ site_size) × (rows ≤ round) × (round ≤ site_rounds) }
    ensures { site.new ≡ emptied site.old rows round }
{
    let from = Site::HEARD + Site::ROW * rows;
    let to = Site::HEARD + Site::ROW * round;
    wire::clear(&mut site[from..to]);
}

// The table of sets heard gets rows up to a round where it has fewer: nothing was heard in these rounds.
fn reach(site: &mut [u8], round: usize)
    requires { (length site.old ≡ site_size) × (round ≤ site_rounds) }
    ensures { site.new ≡ reached site.old round }
{
    let rows = wire::get::<u16>(&site[..], Site::SPAN) as usize;
    if round <= rows {
        return;
    }
    clear_rows(site, rows, round);
    wire::put(site, Site::SPAN, round as u16);
}

// An acknowledgment is united with what its sender acknowledged in its round.
pub fn hear(site: &mut [u8], sender: usize, round: usize, set: Set)
    requires { (length site.old ≡ site_size) × (sender < max_sites) × (1 ≤ round) × (round ≤ site_rounds) }
    ensures { site.new ≡ heard_more site.old sender round set }
{
    reach(site, round);
    let place = heard_place(sender, round);
    let before = Set::read(&site[..], place);
    before.union(set).write(site, place);
}

// The k-th recorded delivery.
pub fn delivery_at(site: &[u8], k: usize) -> Delivery
    requires { (length site.now ≡ site_size) × (k < capacity) }
    ensures { delivery_seen result ≡ delivery_of site.now k }
{
    let place = Site::DELIVERIES + Site::DELIVERY * k;
    let command: u8 = wire::get(site, place);
    let answer: i32 = wire::get(site, place + 1);
    Delivery { command, answer }
}

// A delivery is written at the k-th place for one.
pub fn record_delivery(site: &mut [u8], k: usize, command: u8, answer: i32)
    requires { (length site.old ≡ site_size) × (k < capacity) }
    ensures { site.new ≡ splice site.old (slot k) (delivery_bytes command answer) }
{
    let place = Site::DELIVERIES + Site::DELIVERY * k;
    wire::put(site, place, command);
    wire::put(site, place + 1, answer);
}
