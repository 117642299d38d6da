// Steps 01 to 06: a command or a message reaches a site, and a faulty site's entry reaches the log.
#![tactic(auto)]

ghost use Rattle.std.specs.Prelude.{◌≡◌, true, List, ◌+◌, ◌*◌, ◌≤◌, ◌<◌, ℕ, length};
ghost use Rattle.sets.specs.Sets.{capacity, in_set, within_of};
ghost use Rattle.table.specs.Table.{max_sites, is_good, faulty_of};
ghost use Rattle.protocol.specs.World as protocol;
ghost use Rattle.layout.specs.Layout.{site_size, site_rounds};
ghost use Rattle.site.specs.Steps.{Received, Heard};
ghost use Rattle.entries.specs.Entries.{entry_size};
ghost use Rattle.rounds.specs.Rounds.{Kept};
ghost use Rattle.sent.specs.Sent.{GoodSent};
ghost use Rattle.world.specs.Parts.{AtSite, Arrived, Entered};
ghost use Rattle.arrivals.specs.Messages.{message_verdict};

use entries::Entry;
use layout::Site;
use refusals::{Refusal, Verdict};
use rounds::Rounds;
use sets::Set;
use table::{Rules, SiteTable};

// A set joins what site i received.
fn receive(sites: &mut [u8], i: usize, set: Set)
    requires { i * site_size + site_size ≤ length sites.old }
    ensures { AtSite i (Received set) sites.old sites.new }
{
    let from = i * Site::SIZE;
    let to = from + Site::SIZE;
    site::receive(&mut sites[from..to], set);
}

// Site i hears an acknowledgment of site j in round r.
fn hear(sites: &mut [u8], i: usize, j: usize, r: usize, set: Set)
    requires { (i * site_size + site_size ≤ length sites.old) × (j < max_sites) × (1 ≤ r) × (r ≤ site_rounds) }
    ensures { AtSite i (Heard j r set) sites.old sites.new }
{
    let from = i * Site::SIZE;
    let to = from + Site::SIZE;
    site::hear(&mut sites[from..to], j, r, set);
}

// The verdict on a message from j to i, by whether its other operands are in range and whether its sender has the role that it is to have.
fn judge_message(table: SiteTable, i: usize, j: usize, r: usize, other: bool, role: bool) -> Verdict
    ensures { result ≡ message_verdict table i j r other role }
{
    let in_range = (i < table.sites) & (j < table.sites) & (1 <= r) & (r <= Site::ROUNDS) & other;
    if !in_range {
        return Err(Refusal::Range);
    }
    if table.is_faulty(i) {
        return Err(Refusal::Role);
    }
    if !role {
        return Err(Refusal::Role);
    }
    Ok(())
}

// The verdict on a message with a set from a faulty site j.
fn judge_false(rules: Rules, i: usize, j: usize, r: usize, set: Set) -> Verdict
    ensures { result ≡ message_verdict rules.table i j r (within_of set rules.commands) (faulty_of rules.table j) }
{
    let table = rules.table;
    let within = set.within(rules.commands);
    let faulty = table.is_faulty(j);
    judge_message(table, i, j, r, within, faulty)
}

// 01: a command reaches a site.
pub fn command(sites: &mut [u8], rules: Rules, site: u8, command: u8) -> Verdict
    requires { (length sites.old ≡ rules.table.sites * site_size) × (rules.commands ≤ capacity) }
    ensures { (sent : List ℕ) → Arrived rules.table rules.commands (protocol.command site command) sent sites.old result sites.new }
{
    let table = rules.table;
    let i = site as usize;
    let m = command as usize;
    if i >= table.sites {
        return Err(Refusal::Range);
    }
    if m >= rules.commands {
        return Err(Refusal::Range);
    }
    if table.is_faulty(i) {
        return Err(Refusal::Role);
    }
    let from = i * Site::SIZE;
    let to = from + Site::SIZE;
    site::receive_command(&mut sites[from..to], m);
    Ok(())
}

// 02: the acknowledgment of that number, from 1, that a correct site sent in a round reaches a site.
pub fn acknowledgment(
    sites: &mut [u8],
    sent: &[u8],
    rules: Rules,
    site: u8,
    from: u8,
    round: u8,
    number: u8,
) -> Verdict
    requires { (length sites.old ≡ rules.table.sites * site_size) × (is_good rules.table ≡ true) × GoodSent sent.now }
    ensures { Arrived rules.table rules.commands (protocol.acknowledgment site from round number) sent.now sites.old result sites.new }
{
    let table = rules.table;
    let i = site as usize;
    let j = from as usize;
    let r = round as usize;
    let a = number as usize;
    let counted = (1 <= a) & (a <= Set::CAPACITY);
    let faulty = table.is_faulty(j);
    judge_message(table, i, j, r, counted, !faulty)?;
    let Some(set) = sent::acknowledgment(sent, j, r, number) else {
        return Err(Refusal::Disabled);
    };
    hear(sites, i, j, r, set);
    Ok(())
}

// 03: the check message that a correct site sent in a round reaches a site.
pub fn check(sites: &mut [u8], sent: &[u8], rules: Rules, site: u8, from: u8, round: u8) -> Verdict
    requires { (length sites.old ≡ rules.table.sites * site_size) × (is_good rules.table ≡ true) × GoodSent sent.now }
    ensures { Arrived rules.table rules.commands (protocol.check site from round) sent.now sites.old result sites.new }
{
    let table = rules.table;
    let i = site as usize;
    let j = from as usize;
    let r = round as usize;
    let faulty = table.is_faulty(j);
    judge_message(table, i, j, r, true, !faulty)?;
    let Some(set) = sent::check(sent, j, r) else {
        return Err(Refusal::Disabled);
    };
    receive(sites, i, set);
    Ok(())
}

// 04: an acknowledgment of a faulty site reaches a site.
pub fn false_acknowledgment(
    sites: &mut [u8],
    rules: Rules,
    site: u8,
    from: u8,
    round: u8,
    set: Set,
) -> Verdict
    requires { (length sites.old ≡ rules.table.sites * site_size) × (is_good rules.table ≡ true) }
    ensures { (sent : List ℕ) → Arrived rules.table rules.commands (protocol.false_acknowledgment site from round (in_set set)) sent sites.old result sites.new }
{
    let i = site as usize;
    let j = from as usize;
    let r = round as usize;
    judge_false(rules, i, j, r, set)?;
    hear(sites, i, j, r, set);
    Ok(())
}

// 05: a check message of a faulty site reaches a site.
pub fn false_check(
    sites: &mut [u8],
    rules: Rules,
    site: u8,
    from: u8,
    round: u8,
    set: Set,
) -> Verdict
    requires { length sites.old ≡ rules.table.sites * site_size }
    ensures { (sent : List ℕ) → Arrived rules.table rules.commands (protocol.false_check site from round (in_set set)) sent sites.old result sites.new }
{
    let i = site as usize;
    let j = from as usize;
    let r = round as usize;
    judge_false(rules, i, j, r, set)?;
    receive(sites, i, set);
    Ok(())
}

// 06: an entry of a faulty site reaches the log.
pub fn false_entry(
    log: &mut [u8],
    kept: &mut Rounds,
    rules: Rules,
    rows: &[u64],
    from: u8,
    round: u8,
    nc: Set,
    c: Set,
) -> Verdict
    requires { ((kept.old.entries + 1) * entry_size ≤ length log.old) × (is_good rules.table ≡ true) × Kept rules.table rows.now log.old kept.old
        × (length rows.now ≡ capacity) }
    ensures { Entered rules.table rules.commands (protocol.false_entry from round (in_set nc) (in_set c)) log.old kept.old.entries result
        log.new kept.new.entries × Kept rules.table rows.now log.new kept.new }
{
    let table = rules.table;
    let j = from as usize;
    let r = round as usize;
    let entry = Entry {
        site: j,
        round: r,
        nc,
        c,
    };
    if !entries::in_range(entry, table.sites, rules.commands) {
        return Err(Refusal::Range);
    }
    if !table.is_faulty(j) {
        return Err(Refusal::Role);
    }
    if kept.third(j, r) {
        return Err(Refusal::ThirdEntry);
    }
    kept.append(log, entry, table, rows);
    Ok(())
}
