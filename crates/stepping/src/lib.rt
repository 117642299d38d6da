// One step of a run on lent buffers: each kind is carried out by its function.
#![tactic(auto)]

ghost use Rattle.std.specs.Prelude.{◌≡◌, true, ◌*◌, ◌≤◌, length};
ghost use Rattle.sets.specs.Sets.{capacity};
ghost use Rattle.table.specs.Table.{is_good};
ghost use Rattle.commands.specs.Book.{commands_of};
ghost use Rattle.steps.specs.Meaning.{meaning};
ghost use Rattle.layout.specs.Layout.{site_size};
ghost use Rattle.rounds.specs.Rounds.{Kept};
ghost use Rattle.sent.specs.Sent.{GoodSent};
ghost use Rattle.world.specs.World.{Outcome};
ghost use Rattle.world.specs.Parts.{lent, Arrived};
ghost use Rattle.moves.specs.Moves.{Ready};
ghost use Rattle.stepping.specs.Kinds.{arrives};

use commands::Book;
use refusals::{Refusal, Verdict};
use rounds::Rounds;
use steps::Step;
use table::Rules;

// Steps 01 to 05: a command or a message reaches a site. Any other step is none of these.
fn arrive(sites: &mut [u8], sent: &[u8], rules: Rules, step: Step) -> Verdict
    requires { (length sites.old ≡ rules.table.sites * site_size) × (is_good rules.table ≡ true) × GoodSent sent.now × (rules.commands ≤ capacity) }
    ensures { arrives step ≡ true → Arrived rules.table rules.commands (meaning step) sent.now sites.old result sites.new }
{
    match step {
        Step::Command { site, command } => arrivals::command(sites, rules, site, command),
        Step::Acknowledgment {
            site,
            from,
            round,
            number,
        } => arrivals::acknowledgment(sites, sent, rules, site, from, round, number),
        Step::Check { site, from, round } => arrivals::check(sites, sent, rules, site, from, round),
        Step::FalseAcknowledgment {
            site,
            from,
            round,
            set,
        } => arrivals::false_acknowledgment(sites, rules, site, from, round, set),
        Step::FalseCheck {
            site,
            from,
            round,
            set,
        } => arrivals::false_check(sites, rules, site, from, round, set),
        _ => Err(Refusal::Form),
    }
}

// A step is judged, and carried out where it is taken. What is kept of the log follows it.
pub fn step(
    sites: &mut [u8],
    log: &mut [u8],
    sent: &mut [u8],
    kept: &mut Rounds,
    rules: Rules,
    book: &Book,
    rows: &[u64],
    step: Step,
) -> Verdict
    requires { Ready rules.table book.now.bytes.now rows.now (lent sites.old log.old kept.old.entries sent.old) (meaning step)
        × (book.now.len ≡ rules.commands) × Kept rules.table rows.now log.old kept.old }
    ensures { Outcome rules.table (commands_of book.now.bytes.now) (meaning step) (lent sites.old log.old kept.old.entries sent.old)
        result (lent sites.new log.new kept.new.entries sent.new)
        × Kept rules.table rows.now log.new kept.new }
{
    // The kinds are closed, so a match says all; functions in a table would each be lent the whole world.
    match step {
        Step::FalseEntry { from, round, nc, c } => {
            arrivals::false_entry(log, kept, rules, rows, from, round, nc, c)
        }
        Step::Turn { site } => moves::turn(sites, log, sent, kept, rules, rows, site),
        Step::FastDelivery { site, command } => {
            closings::fast_delivery(sites, rules, book, site, command)
        }
        Step::LogRead { site } => {
            let entries = kept.entries();
            moves::log_read(sites, entries, rules, site)
        }
        Step::RoundEnd { site } => closings::round_end(sites, kept, rules, book, site),
        _ => arrive(sites, &sent[..], rules, step),
    }
}
