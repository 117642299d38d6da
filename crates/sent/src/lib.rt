// What correct sites have sent, in one lent buffer: for each site and round its acknowledgments, and its check message.
#![tactic(auto)]

ghost use Rattle.std.specs.Prelude.{◌≡◌, [], ◌≤◌, ◌<◌, length, None};
ghost use Rattle.sets.specs.Sets.{in_set};
ghost use Rattle.table.specs.Table.{max_sites};
ghost use Rattle.sent.specs.Sent.{sent_rounds, sent_size, cells, cell_of, count_place, flag_place, set_place, check_place, max_acknowledgments};
ghost use Rattle.sent.specs.Sent.{acks_of, checks_of, numbered, acknowledgment_of, check_of, cleared, acknowledged_in, checked_in, one_more, checked, GoodSent, Read, Holds};

use sets::Set;
use table::SiteTable;

// Messages are sent in rounds 1 to 33.
pub const ROUNDS: usize = 33;

// The acknowledgments of a site and round that there is room for.
pub const MAX_ACKNOWLEDGMENTS: usize = 64;

// The bytes of all that was sent: the sets of each site and round, then a count and a flag for each.
pub const SIZE: usize = FLAGS + CELLS;

// A cell for each site and round.
const CELLS: usize = SiteTable::MAX_SITES * ROUNDS;

// The bytes of a cell's acknowledgments. They come first, so that every set stands at a multiple of 8.
const CELL: usize = MAX_ACKNOWLEDGMENTS * Set::BYTES;

// After them stand the check messages of all cells.
const CHECKS: usize = CELLS * CELL;

// After the sets stand the counts of all cells.
const COUNTS: usize = CHECKS + CELLS * Set::BYTES;

// After the counts stand their flags.
const FLAGS: usize = COUNTS + CELLS;

// The cell of a site and round.
fn cell_of(j: usize, r: usize) -> usize
    requires { (j < max_sites) × (1 ≤ r) × (r ≤ sent_rounds) }
    ensures { (result ≡ cell_of j r) × (result < cells) }
{
    j * ROUNDS + (r - 1)
}

// Where the number of a cell's acknowledgments stands.
fn count_at(cell: usize) -> usize
    requires { cell < cells }
    ensures { result ≡ count_place cell }
{
    COUNTS + cell
}

// Where a cell's flag stands.
fn flag_at(cell: usize) -> usize
    requires { cell < cells }
    ensures { result ≡ flag_place cell }
{
    FLAGS + cell
}

// Where the n-th acknowledgment of a cell stands, counted from 0.
fn set_at(cell: usize, n: usize) -> usize
    requires { (cell < cells) × (n < max_acknowledgments) }
    ensures { result ≡ set_place cell n }
{
    cell * CELL + n * Set::BYTES
}

// Where a cell's check message stands.
fn check_at(cell: usize) -> usize
    requires { cell < cells }
    ensures { result ≡ check_place cell }
{
    CHECKS + cell * Set::BYTES
}

// Nothing is sent: the counts and the flags become 0, the sets stay as they were.
pub fn clear(sent: &mut [u8])
    requires { length sent.old ≡ sent_size }
    ensures { Holds sent.new (cleared sent.old) (λ j r. []) (λ j r. None) }
{
    wire::clear(&mut sent[COUNTS..SIZE]);
}

// The a-th acknowledgment of a site and round, counted from 1; none where it was never sent.
pub fn acknowledgment(sent: &[u8], j: usize, r: usize, a: u8) -> Option<Set>
    requires { GoodSent sent.now × (j < max_sites) × (1 ≤ r) × (r ≤ sent_rounds) }
    ensures { Read result (acknowledgment_of sent.now j r a) (numbered (acks_of sent.now j r) a) }
{
    let cell = cell_of(j, r);
    let count: u8 = wire::get(sent, count_at(cell));
    if (a == 0) | (a > count) {
        return None;
    }
    let set = Set::read(sent, set_at(cell, (a - 1) as usize));
    Some(set)
}

// The check message of a site and round; none where it was never sent.
pub fn check(sent: &[u8], j: usize, r: usize) -> Option<Set>
    requires { GoodSent sent.now × (j < max_sites) × (1 ≤ r) × (r ≤ sent_rounds) }
    ensures { Read result (check_of sent.now j r) (checks_of sent.now j r) }
{
    let cell = cell_of(j, r);
    let flag: u8 = wire::get(sent, flag_at(cell));
    if flag != 1 {
        return None;
    }
    let set = Set::read(sent, check_at(cell));
    Some(set)
}

// A site sends one acknowledgment more in a round.
pub fn add_acknowledgment(sent: &mut [u8], j: usize, r: usize, set: Set)
    requires { GoodSent sent.old × (j < max_sites) × (1 ≤ r) × (r ≤ sent_rounds) × (length (acks_of sent.old j r) < max_acknowledgments) }
    ensures { Holds sent.new (acknowledged_in sent.old (cell_of j r) set)
        (one_more j r (in_set set) (acks_of sent.old)) (checks_of sent.old) }
{
    let cell = cell_of(j, r);
    let counted = count_at(cell);
    let count: u8 = wire::get(&sent[..], counted);
    let at = set_at(cell, count as usize);
    set.write(sent, at);
    wire::put(sent, counted, count + 1);
}

// A site sends its check message of a round.
pub fn put_check(sent: &mut [u8], j: usize, r: usize, set: Set)
    requires { GoodSent sent.old × (j < max_sites) × (1 ≤ r) × (r ≤ sent_rounds) }
    ensures { Holds sent.new (checked_in sent.old (cell_of j r) set)
        (acks_of sent.old) (checked j r (in_set set) (checks_of sent.old)) }
{
    let cell = cell_of(j, r);
    set.write(sent, check_at(cell));
    wire::put(sent, flag_at(cell), 1u8);
}
