// The standing of the sources in a round, entry by entry, up to the entry that decides the round.
#![tactic(auto)]

ghost use Rattle.std.specs.Prelude.{true, List, ◌≡◌, ℕ, ◌+◌, ◌*◌, ◌≤◌, ◌<◌, length};
ghost use Rattle.sets.specs.declared.Set.{Set};
ghost use Rattle.sets.specs.Sets.{capacity, in_set};
ghost use Rattle.table.specs.Table.{is_good};
ghost use Rattle.calm.specs.Rows.{free_by};
ghost use Rattle.entries.specs.Entries.{entry_size, entry_of};
ghost use Rattle.standing.specs.Standings.{nobody_yet, valid_after, with_entry, standing_of};

use sets::Set;
use table::SiteTable;

// Which sites have an entry of the round and which are valid; whether that decides the round; and after how many
// entries of the log this is so. That number stands where nothing is decided, too, so it is no Option.
#[derive(Clone, Copy)]
pub struct Standing {
    pub seen: Set,
    pub valid: Set,
    pub decided: bool,
    pub entries: usize,
}

// The valid sources with one entry more: a source's first is valid if its NC is free of conflicts, a second excludes
// the source.
fn valid_after(before: Standing, free: bool, site: usize) -> Set
    requires { site < capacity }
    ensures { (rows : List ℕ) (nc : Set) → free ≡ free_by rows (in_set nc) → result ≡ valid_after rows site nc before }
{
    if before.seen.has(site) {
        let source = Set::empty().with(site);
        return before.valid.without(source);
    }
    if !free {
        return before.valid;
    }
    before.valid.with(site)
}

// Before any entry.
fn nobody_yet() -> Standing
    ensures { result ≡ nobody_yet }
{
    let nobody = Set::empty();
    Standing {
        seen: nobody,
        valid: nobody,
        decided: false,
        entries: 0,
    }
}

// The standing with the k-th entry added, of which is told whether its NC is free of conflicts. An entry of another
// round, or of a site beyond the table, changes nothing.
fn with_entry(
    before: Standing,
    log: &[u8],
    k: usize,
    round: usize,
    table: SiteTable,
    free: bool,
) -> Standing
    requires { (is_good table ≡ true) × (k * entry_size + entry_size ≤ length log.now) }
    ensures { (rows : List ℕ) → free ≡ free_by rows (in_set (entry_of log.now k).nc)
        → result ≡ with_entry table rows round (k + 1) (entry_of log.now k) before }
{
    if entries::round_of(log, k) != round {
        return before;
    }
    let site = entries::site_of(log, k);
    if site >= table.sites {
        return before;
    }
    let valid = valid_after(before, free, site);
    Standing {
        seen: before.seen.with(site),
        valid,
        decided: valid.size() == table.n_chk(),
        entries: k + 1,
    }
}

// The standing after k entries, of which none before `from` is of the round: entry by entry, until the round is decided.
pub fn standing_after(
    log: &[u8],
    from: usize,
    k: usize,
    round: usize,
    table: SiteTable,
    rows: &[u64],
) -> Standing
    requires { (is_good table ≡ true) × (k * entry_size ≤ length log.now) × (length rows.now ≡ capacity)
        × (from ≤ k) × ((i : ℕ) → i < from → (entry_of log.now i).round ≡ round → ⊥) }
    ensures { result ≡ standing_of table rows.now round log.now k }
{
    let mut sources = nobody_yet();
    for i in from..k {
        if entries::round_of(log, i) == round {
            let free = calm::is_free(rows, entries::nc_of(log, i));
            sources = with_entry(sources, log, i, round, table, free);
            if sources.decided {
                return sources;
            }
        }
    }
    sources
}
