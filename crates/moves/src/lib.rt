// Steps 07 and 09: a correct site takes a turn, or reads the next entry of the log.
#![tactic(auto)]

ghost use Rattle.std.specs.Prelude.{◌≡◌, List, ◌*◌, ◌≤◌, ◌<◌, ℕ, length};
ghost use Rattle.sets.specs.Sets.{capacity};
ghost use Rattle.table.specs.Table.{max_sites};
ghost use Rattle.commands.specs.Book.{commands_of};
ghost use Rattle.protocol.specs.World as protocol;
ghost use Rattle.layout.specs.Layout.{site_size, head_of};
ghost use Rattle.rounds.specs.Rounds.{kept_rounds, Kept};
ghost use Rattle.world.specs.World.{Outcome};
ghost use Rattle.world.specs.Parts.{lent};
ghost use Rattle.moves.specs.Moves.{Ready, TurnedBy, LogRead};

use entries::Entry;
use layout::Site;
use refusals::{Refusal, Verdict};
use rounds::Rounds;
use site::Turn;
use table::Rules;

// Site i, of these bytes, takes its turn, by the rows of conflicts and what is kept of the log.
fn turn_by(site: &mut [u8], kept: &Rounds, rows: &[u64], i: usize) -> Result<Turn, Refusal>
    requires { (length site.old ≡ site_size) × (length rows.now ≡ capacity) × (i < max_sites) × ((head_of site.old).round < kept_rounds) }
    ensures { TurnedBy rows.now kept.now i result site.old site.new }
{
    let header = Site::read(&site[..]);
    let free = calm::is_free(rows, site::undelivered(header));
    let third = kept.third(i, header.round as usize);
    site::take_turn(site, free, third)
}

// 07: a site takes its turn. What it sends is kept, and what it proposes is appended to the log.
pub fn turn(
    sites: &mut [u8],
    log: &mut [u8],
    sent: &mut [u8],
    kept: &mut Rounds,
    rules: Rules,
    rows: &[u64],
    site: u8,
) -> Verdict
    requires { ((book : List ℕ) × Ready rules.table book rows.now (lent sites.old log.old kept.old.entries sent.old) (protocol.turn site))
        × Kept rules.table rows.now log.old kept.old }
    ensures { ((book : List ℕ) → Ready rules.table book rows.now (lent sites.old log.old kept.old.entries sent.old) (protocol.turn site)
        → Outcome rules.table (commands_of book) (protocol.turn site) (lent sites.old log.old kept.old.entries sent.old)
        result (lent sites.new log.new kept.new.entries sent.new))
        × Kept rules.table rows.now log.new kept.new }
{
    let table = rules.table;
    let i = site as usize;
    if i >= table.sites {
        return Err(Refusal::Range);
    }
    if table.is_faulty(i) {
        return Err(Refusal::Role);
    }
    let from = i * Site::SIZE;
    let to = from + Site::SIZE;
    let header = Site::read(&sites[from..to]);
    let round = header.round as usize;
    let turn = turn_by(&mut sites[from..to], kept, rows, i)?;
    match turn {
        Turn::Acknowledged(set) => {
            sent::add_acknowledgment(sent, i, round, set);
            Ok(())
        }
        Turn::Proposed { check, entry } => {
            sent::put_check(sent, i, round, check);
            let proposed = Entry {
                site: i,
                round,
                nc: entry.nc,
                c: entry.c,
            };
            kept.append(log, proposed, table, rows);
            Ok(())
        }
    }
}

// 09: a site reads the next entry of the log. Every entry that a run appends is in range, and none is a third of its site and round.
pub fn log_read(sites: &mut [u8], entries: usize, rules: Rules, site: u8) -> Verdict
    requires { (length sites.old ≡ rules.table.sites * site_size) × (entries ≤ 65535) }
    ensures { LogRead rules.table site entries sites.old result sites.new }
{
    let table = rules.table;
    let i = site as usize;
    if i >= table.sites {
        return Err(Refusal::Range);
    }
    if table.is_faulty(i) {
        return Err(Refusal::Role);
    }
    let from = i * Site::SIZE;
    let to = from + Site::SIZE;
    let header = Site::read(&sites[from..to]);
    let position = header.position as usize;
    site::read_entry(&mut sites[from..to], position < entries, false)
}
