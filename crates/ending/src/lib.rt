// The end of a round: the commands that the log decided are delivered, and the site acknowledges again, in the next round.
#![tactic(auto)]

ghost use Rattle.std.specs.Prelude.{◌≡◌, ℕ, ◌+◌, ◌≤◌, length};
ghost use Rattle.wire.specs.Wire.{splice};
ghost use Rattle.commands.specs.Book.{commands_of};
ghost use Rattle.recovery.specs.Decisions.{DecisionWithin};
ghost use Rattle.layout.specs.Layout.{site_size, site_rounds, head_bytes, Begins};
ghost use Rattle.layout.specs.Good.{Good};
ghost use Rattle.ending.specs.Ending.{due_of, ended, judged_end, RoundEnded};

use commands::Book;
use layout::{Phase, Site};
use recovery::Sets;
use refusals::{Refusal, Verdict};
use sets::Set;

// What of a set is not yet delivered.
fn due(header: Site, set: Set) -> Set
    ensures { result ≡ due_of header set }
{
    set.without(header.delivered.union(header.fast))
}

// Whether the round ends with the decided sets, and else the refusal: a site that acknowledges ends none.
fn judge(header: Site, commands: usize, sets: Sets) -> Verdict
    ensures { result ≡ judged_end header commands sets }
{
    match header.phase {
        Phase::Acknowledging => Err(Refusal::Disabled),
        Phase::Waiting(_) => {
            let more = due(header, sets.nc).size() + due(header, sets.c).size();
            let recorded = header.deliveries as usize;
            if recorded + more > commands {
                return Err(Refusal::Full);
            }
            Ok(())
        }
    }
}

// The site acknowledges in the next round, with the decided sets delivered and nothing pending.
fn next_round(site: &mut [u8], header: Site, sets: Sets, deliveries: u16)
    requires { (length site.old ≡ site_size) × (header.round ≤ site_rounds) × Begins header site.old }
    ensures { site.new ≡ splice site.old 0 (head_bytes (ended header sets deliveries)) }
{
    let none = Set::empty();
    wire::put(site, Site::ROUND, header.round + 1);
    wire::put(site, Site::COUNT, deliveries);
    let delivered = header.delivered.union(sets.nc.union(sets.c));
    delivered.write(site, Site::DELIVERED);
    none.write(site, Site::PENDING);
    none.write(site, Site::FAST);
    layout::set_phase(site, Phase::Acknowledging);
}

// The round ends as it was decided, or the step is refused: NC in number order, then C, without what was delivered.
pub fn round_end(site: &mut [u8], book: &Book, decision: Option<Sets>) -> Verdict
    requires { ((sites : ℕ) × Good sites book.now.len site.old) × DecisionWithin book.now.len decision }
    ensures { RoundEnded (commands_of book.now.bytes.now) decision site.old result site.new }
{
    let Some(sets) = decision else {
        return Err(Refusal::Disabled);
    };
    let header = Site::read(&site[..]);
    judge(header, book.len, sets)?;
    let first = due(header, sets.nc);
    let second = due(header, sets.c);
    let recorded = header.deliveries as usize;
    let between = deliver::deliver_all(site, book.bytes, book.places, recorded, first);
    let total = deliver::deliver_all(site, book.bytes, book.places, between, second);
    next_round(site, header, sets, total as u16);
    Ok(())
}
