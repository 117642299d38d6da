// The steps of one lent site that deliver nothing: a set received, an acknowledgment heard, a turn taken, a log entry read.
#![tactic(auto)]

ghost use Rattle.std.specs.Prelude.{◌≡◌, true, ◌≤◌, ◌<◌, length};
ghost use Rattle.sets.specs.Sets.{capacity};
ghost use Rattle.table.specs.Table.{max_sites};
ghost use Rattle.layout.specs.Layout.{site_size, site_rounds, head_of};
ghost use Rattle.site.specs.Steps.{undelivered_of, chosen, Received, Commanded, Heard, TookTurn, ReadEntry};

use layout::{Phase, Proposal, Site};
use refusals::{Refusal, Verdict};
use sets::Set;

// What a turn sends to every site: an acknowledgment, or a check message with the two sets of a log entry.
#[derive(Clone, Copy)]
pub enum Turn {
    Acknowledged(Set),
    Proposed { check: Set, entry: Proposal },
}

// The last round that the log takes.
pub const LAST_ROUND: u8 = 32;

// A set joins Received, whatever round it came in.
pub fn receive(site: &mut [u8], set: Set)
    requires { length site.old ≡ site_size }
    ensures { Received set site.old site.new }
{
    let header = Site::read(&site[..]);
    header.received.union(set).write(site, Site::RECEIVED);
}

// A command joins Received.
pub fn receive_command(site: &mut [u8], command: usize)
    requires { (length site.old ≡ site_size) × (command < capacity) }
    ensures { Commanded command site.old site.new }
{
    receive(site, Set::empty().with(command));
}

// An acknowledgment joins Received and is kept under its sender and its own round, past, present or to come.
pub fn hear(site: &mut [u8], sender: usize, round: usize, set: Set)
    requires { (length site.old ≡ site_size) × (sender < max_sites) × (1 ≤ round) × (round ≤ site_rounds) }
    ensures { Heard sender round set site.old site.new }
{
    let header = Site::read(&site[..]);
    layout::hear(site, sender, round, set);
    header.received.union(set).write(site, Site::RECEIVED);
}

// What was received and is not delivered.
pub fn undelivered(header: Site) -> Set
    ensures { result ≡ undelivered_of header }
{
    header.received.without(header.delivered)
}

// What a turn does, by the conflict test of what is undelivered and whether the site has two entries of its round.
fn choose(header: Site, free: bool, third: bool) -> Result<Turn, Refusal>
    ensures { result ≡ chosen header free third }
{
    match header.phase {
        Phase::Waiting(_) => Err(Refusal::Disabled),
        Phase::Acknowledging => {
            let check = undelivered(header);
            let new = check.without(header.pending);
            if new.is_empty() {
                return Err(Refusal::Disabled);
            }
            if free {
                return Ok(Turn::Acknowledged(check));
            }
            if third {
                return Err(Refusal::ThirdEntry);
            }
            if header.round > LAST_ROUND {
                return Err(Refusal::LastRound);
            }
            Ok(Turn::Proposed {
                check,
                entry: Proposal {
                    nc: header.pending,
                    c: new,
                },
            })
        }
    }
}

// A turn: the site acknowledges what it received, or proposes where that has a conflict, or is refused.
pub fn take_turn(site: &mut [u8], free: bool, third: bool) -> Result<Turn, Refusal>
    requires { length site.old ≡ site_size }
    ensures { TookTurn free third site.old result site.new }
{
    let header = Site::read(&site[..]);
    let turn = choose(header, free, third)?;
    match turn {
        Turn::Acknowledged(raised) => raised.write(site, Site::PENDING),
        Turn::Proposed { entry, .. } => layout::set_phase(site, Phase::Waiting(entry)),
    }
    Ok(turn)
}

// The next entry of the log is read, in either phase: whether one is left, and whether it is a third of its site and round, is told.
pub fn read_entry(site: &mut [u8], left: bool, third: bool) -> Verdict
    requires { (length site.old ≡ site_size) × (left ≡ true → (head_of site.old).position < 65535) }
    ensures { ReadEntry left third site.old result site.new }
{
    if !left {
        return Err(Refusal::Disabled);
    }
    if third {
        return Err(Refusal::ThirdEntry);
    }
    let header = Site::read(&site[..]);
    wire::put(site, Site::POSITION, header.position + 1);
    Ok(())
}
