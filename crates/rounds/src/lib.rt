// What the log says of each round, kept as the log grows: a decision is looked up, not computed again.
#![tactic(auto)]

ghost use Rattle.std.specs.Prelude.{true, false, not, List, ◌≡◌, ℕ, ◌+◌, ◌*◌, ◌≤◌, ◌<◌, ltb, length};
ghost use Rattle.sets.specs.Sets.{capacity, in_set};
ghost use Rattle.table.specs.declared.SiteTable.{SiteTable};
ghost use Rattle.table.specs.Table.{is_good, max_sites};
ghost use Rattle.protocol.specs.Recovery.{entries, decide};
ghost use Rattle.calm.specs.Rows.{rows_system};
ghost use Rattle.entries.specs.Entries.{entry_size, entry_of, write_entry, log_to};
ghost use Rattle.recovery.specs.Decisions.{found_sets, decision_of};
ghost use Rattle.rounds.specs.Rounds.{kept_rounds, unheard, noted_of, again_of, decided_of, Counts, Decides, Kept};

use entries::Entry;
use recovery::Sets;
use sets::Set;
use table::SiteTable;

// Rounds 0 to 33 are kept.
pub const ROUNDS: usize = 34;

// The decision of a round: the place of the entry that decides it, and the decided sets. The place of an entry is how many entries
// the log has with it.
#[derive(Clone, Copy)]
pub struct Decided {
    pub place: usize,
    pub sets: Sets,
}

// What is kept of a round.
#[derive(Clone, Copy)]
pub struct Round {
    // The sites with an entry of the round, and those with two.
    pub once: Set,
    pub twice: Set,
    // The valid sources, while no entry decides the round.
    pub valid: Set,
    // Its decision, and the place of its first entry.
    pub decided: Option<Decided>,
    pub first: Option<usize>,
}

impl Round {
    // A round with no entry.
    fn none() -> Round
        ensures { result ≡ unheard }
    {
        let none = Set::empty();
        Round {
            once: none,
            twice: none,
            valid: none,
            decided: None,
            first: None,
        }
    }

    // A site's first entry, at a place: the site has one, and the round its first.
    fn note_first(&mut self, site: usize, place: usize)
        requires { site < capacity }
        ensures { self.new ≡ noted_of self.old site place }
    {
        self.once = self.once.with(site);
        self.first = self.first.or(Some(place));
    }

    // A site's second entry, or a later one: the site has two, and is no valid source while no entry decides the round.
    fn note_again(&mut self, site: usize)
        requires { site < capacity }
        ensures { self.new ≡ again_of self.old site }
    {
        self.twice = self.twice.with(site);
        if self.decided.is_none() {
            let source = Set::empty().with(site);
            self.valid = self.valid.without(source);
        }
    }

    // The k-th entry decides its round: the sets of the valid sources are gathered, from the round's first entry on.
    fn note_decision(&mut self, log: &[u8], k: usize, round: usize, table: SiteTable)
        requires { (is_good table ≡ true) × (k * entry_size + entry_size ≤ length log.now)
            × ((entry_of log.now k).round ≡ round) × Counts log.now (k + 1) round self.old }
        ensures { self.new ≡ decided_of self.old (k + 1) (found_sets table log.now round self.old.valid (k + 1)) }
    {
        let from = self.first.unwrap() - 1;
        let place = k + 1;
        let sets = recovery::decided_sets(log, from, place, round, self.valid, table);
        self.decided = Some(Decided { place, sets });
    }

    // The k-th entry is its site's first of the round. While no entry decides the round, the site becomes a valid source if its NC is
    // free of conflicts, and enough valid sources decide.
    fn enter_first(
        &mut self,
        log: &[u8],
        k: usize,
        site: usize,
        round: usize,
        table: SiteTable,
        rows: &[u64],
    )
        requires { (is_good table ≡ true) × (k * entry_size + entry_size ≤ length log.now)
            × Counts log.now k round self.old × Decides log.now k round table rows.now self.old
            × (length rows.now ≡ capacity) × (site < table.sites) × (site ≡ (entry_of log.now k).site)
            × ((entry_of log.now k).round ≡ round) × (in_set self.old.once site ≡ false) }
        ensures { Counts log.now (k + 1) round self.new × Decides log.now (k + 1) round table rows.now self.new }
    {
        self.note_first(site, k + 1);
        if self.decided.is_some() {
            return;
        }
        let free = calm::is_free(rows, entries::nc_of(log, k));
        if !free {
            return;
        }
        self.valid = self.valid.with(site);
        if self.valid.size() != table.n_chk() {
            return;
        }
        self.note_decision(log, k, round, table);
    }

    // The k-th entry of the log, one of the round, is taken in.
    fn enter(&mut self, log: &[u8], k: usize, round: usize, table: SiteTable, rows: &[u64])
        requires { (is_good table ≡ true) × (k * entry_size + entry_size ≤ length log.now)
            × Counts log.now k round self.old × Decides log.now k round table rows.now self.old
            × (length rows.now ≡ capacity) × ((entry_of log.now k).site < table.sites) × ((entry_of log.now k).round ≡ round) }
        ensures { Counts log.now (k + 1) round self.new × Decides log.now (k + 1) round table rows.now self.new }
    {
        let site = entries::site_of(log, k);
        if self.once.has(site) {
            self.note_again(site);
        } else {
            self.enter_first(log, k, site, round, table, rows);
        }
    }
}

// What is kept of a log: of each of its rounds, and how many entries it has.
#[derive(Clone, Copy)]
pub struct Rounds {
    pub rounds: [Round; ROUNDS],
    pub entries: usize,
}

impl Rounds {
    // What is kept of a log with no entry.
    pub fn none() -> Rounds
        ensures { (result.entries ≡ 0) × ((t : SiteTable) (rows log : List ℕ) → Kept t rows log result) }
    {
        Rounds {
            rounds: [Round::none(); ROUNDS],
            entries: 0,
        }
    }

    // How many entries the log has.
    pub fn entries(&self) -> usize
        ensures { result ≡ self.now.entries }
    {
        self.entries
    }

    // An entry is written after those that the log has, and taken into what is kept.
    pub fn append(&mut self, log: &mut [u8], entry: Entry, table: SiteTable, rows: &[u64])
        requires { (is_good table ≡ true) × Kept table rows.now log.old self.old × (self.old.entries * entry_size + entry_size ≤ length log.old)
            × (length rows.now ≡ capacity) × (entry.site < table.sites) × (entry.round < kept_rounds) }
        ensures { (log.new ≡ write_entry log.old self.old.entries entry)
            × (self.new.entries ≡ self.old.entries + 1) × Kept table rows.now log.new self.new }
    {
        let k = self.entries;
        let round = entry.round;
        entries::write_entry(log, k, entry);
        let kept = &mut self.rounds[round];
        kept.enter(&log[..], k, round, table, rows);
        self.entries = k + 1;
    }

    // Whether an entry of a site and round would be its third.
    pub fn third(&self, site: usize, round: usize) -> bool
        requires { (site < max_sites) × (round < kept_rounds) }
        ensures { (t : SiteTable) (rows log : List ℕ) → Kept t rows log self.now
            → result ≡ not (ltb (entries site round (log_to log self.now.entries)) 2) }
    {
        self.rounds[round].twice.has(site)
    }

    // The decision of a round at a log position; none where it is undecided.
    pub fn decision(&self, round: usize, position: usize) -> Option<Sets>
        requires { round < kept_rounds }
        ensures { (t : SiteTable) (rows log : List ℕ) → Kept t rows log self.now → position ≤ self.now.entries
            → result ≡ decision_of (rows_system t rows) (decide (rows_system t rows) round (log_to log position)) }
    {
        let decided = self.rounds[round].decided?;
        if decided.place > position {
            return None;
        }
        Some(decided.sets)
    }
}
