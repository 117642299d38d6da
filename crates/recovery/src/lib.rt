// The decision of a round by the log: the recovery consensus of 004 (algorithm C_absign).
#![tactic(auto)]

ghost use Rattle.std.specs.Prelude.{true, ◌≡◌, ℕ, ◌+◌, ◌*◌, ◌≤◌, ◌<◌, length};
ghost use Rattle.sets.specs.Sets.{capacity};
ghost use Rattle.table.specs.Table.{is_good};
ghost use Rattle.calm.specs.Rows.{rows_system};
ghost use Rattle.protocol.specs.Recovery.{decide};
ghost use Rattle.entries.specs.Entries.{entry_size, entry_of, log_to};
ghost use Rattle.recovery.specs.Decisions.{level_with, levels_with, levels_after, levels_of, no_levels, level_of, found_sets, decision_of};

use sets::Set;
use table::SiteTable;

// The sets that a decided round delivers: NCSet, then CSet. A type of its own, so that no proposal stands for a decision.
#[derive(Clone, Copy)]
pub struct Sets {
    pub nc: Set,
    pub c: Set,
}

// How many levels there are: as many as a majority of the greatest table.
const LEVELS: usize = SiteTable::MAX_SITES / 2 + 1;

// The commands in at least one, two, .. six of the NC sets looked at, and all commands of the sets looked at.
#[derive(Clone, Copy)]
pub struct Levels {
    pub at_least: [Set; LEVELS],
    pub proposed: Set,
}

fn no_levels() -> Levels
    ensures { result ≡ no_levels }
{
    let none = Set::empty();
    Levels {
        at_least: [none; LEVELS],
        proposed: none,
    }
}

// A level with one set more: what it had, and what the level below had if it is in the set.
fn level_with(level: Set, below: Set, nc: Set) -> Set
    ensures { result ≡ level_with level below nc }
{
    let raised = below.common(nc);
    level.union(raised)
}

// All levels with one source's sets more. Below the lowest level every command counts, so the set itself stands there.
fn levels_with(levels: Levels, nc: Set, c: Set) -> Levels
    ensures { result ≡ levels_with levels nc c }
{
    let mut at_least = levels.at_least;
    let mut below = nc;
    for level in at_least.iter_mut() {
        let had = *level;
        *level = level_with(had, below, nc);
        below = had;
    }
    let both = nc.union(c);
    Levels {
        at_least,
        proposed: levels.proposed.union(both),
    }
}

// All levels with the k-th entry looked at; only an entry of the round and of a valid source counts.
fn levels_after(levels: Levels, log: &[u8], k: usize, round: usize, valid: Set) -> Levels
    requires { k * entry_size + entry_size ≤ length log.now }
    ensures { result ≡ levels_after round valid (entry_of log.now k) levels }
{
    if entries::round_of(log, k) != round {
        return levels;
    }
    let site = entries::site_of(log, k);
    if !valid.has(site) {
        return levels;
    }
    let nc = entries::nc_of(log, k);
    let c = entries::c_of(log, k);
    levels_with(levels, nc, c)
}

// The levels of the valid sources' entries among the first n; no entry before `from` is of the round.
fn gather(log: &[u8], from: usize, n: usize, round: usize, valid: Set) -> Levels
    requires { (n * entry_size ≤ length log.now) × (from ≤ n) × ((i : ℕ) → i < from → (entry_of log.now i).round ≡ round → ⊥) }
    ensures { result ≡ levels_of log.now round valid n }
{
    let mut levels = no_levels();
    for k in from..n {
        levels = levels_after(levels, log, k, round, valid);
    }
    levels
}

// The commands in at least n of the NC sets, n from 1 to 6.
fn at_least(levels: Levels, n: usize) -> Set
    ensures { result ≡ level_of levels n }
{
    if n < 1 || n > LEVELS {
        return Set::empty();
    }
    levels.at_least[n - 1]
}

// The sets that the valid sources' entries among the first n make; no entry before `from` is of the round.
// NC are the commands in at least a majority of the valid NC sets, C every other command of the valid sets.
pub fn decided_sets(
    log: &[u8],
    from: usize,
    n: usize,
    round: usize,
    valid: Set,
    table: SiteTable,
) -> Sets
    requires { (is_good table ≡ true) × (n * entry_size ≤ length log.now) × (from ≤ n) × ((i : ℕ) → i < from → (entry_of log.now i).round ≡ round → ⊥) }
    ensures { result ≡ found_sets table log.now round valid n }
{
    let levels = gather(log, from, n, round, valid);
    let nc = at_least(levels, table.majority());
    let c = levels.proposed.without(nc);
    Sets { nc, c }
}

// What the first k entries decide of a round; none where they decide nothing.
pub fn decide(log: &[u8], k: usize, round: usize, table: SiteTable, rows: &[u64]) -> Option<Sets>
    requires { (is_good table ≡ true) × (k * entry_size ≤ length log.now) × (length rows.now ≡ capacity) }
    ensures { result ≡ decision_of (rows_system table rows.now) (decide (rows_system table rows.now) round (log_to log.now k)) }
{
    let first = entries::first_of(log, k, round);
    let sources = standing::standing_after(log, first, k, round, table, rows);
    if !sources.decided {
        return None;
    }
    let sets = decided_sets(log, first, sources.entries, round, sources.valid, table);
    Some(sets)
}
