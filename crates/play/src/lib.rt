// The steps of a run, played one after another on lent buffers, with a line for each refused one.
#![tactic(auto)]

ghost use Rattle.std.specs.Prelude.{◌+◌, ◌≤◌, ◌<◌, Err};
ghost use Rattle.commands.specs.Book.{commands_of};
ghost use Rattle.print.specs.Print.{HasRoom, Printed};
ghost use Rattle.runs.specs.Run as runs;
ghost use Rattle.rounds.specs.Rounds.{Kept};
ghost use Rattle.world.specs.Parts.{lent};
ghost use Rattle.play.specs.Played.{line_room, Playable, PlayedAll};

use commands::Book;
use print::Text;
use refusals::{Refusal, Verdict};
use rounds::Rounds;
use table::Rules;

// The line of a refused step is written.
fn put_refusal(text: &mut Text<'_>, number: usize, refusal: Refusal)
    requires { HasRoom text.old line_room × (number < 100000) }
    ensures { Printed text.new text.old (runs.report number (Err refusal)) × (text.new.end ≤ text.old.end + line_room) }
{
    let cause = u32::from(refusal) as usize;
    lines::put_step_line(text, number, cause);
}

// The line of a step is written where it is refused.
fn report(text: &mut Text<'_>, number: usize, verdict: Verdict)
    requires { HasRoom text.old line_room × (number < 100000) }
    ensures { Printed text.new text.old (runs.report number verdict) × (text.new.end ≤ text.old.end + line_room) }
{
    match verdict {
        Ok(()) => {}
        Err(refusal) => put_refusal(text, number, refusal),
    }
}

// The steps are played from the start of a run, with what is kept of the log. The lines of the refused ones are written.
// What cannot be read is refused as 3, and nothing is read after it.
fn play_on(
    sites: &mut [u8],
    log: &mut [u8],
    sent: &mut [u8],
    kept: &mut Rounds,
    rules: Rules,
    book: &Book,
    rows: &[u64],
    steps: &[u8],
    text: &mut Text<'_>,
)
    requires { Playable rules book.now rows.now steps.now text.old (lent sites.old log.old kept.old.entries sent.old)
        × Kept rules.table rows.now log.old kept.old }
    ensures { PlayedAll rules.table (commands_of book.now.bytes.now) steps.now text.new text.old sites.old
        sites.new log.new sent.new }
{
    let mut at: usize = 0;
    let mut number: usize = 1;
    // A cursor, not an index: where the next step starts is known once this one is read.
    while at < steps.len() {
        let Some(step) = steps::read_step(steps, at) else {
            put_refusal(text, number, Refusal::Form);
            return;
        };
        let size = steps::size(step);
        let verdict = stepping::step(sites, log, sent, kept, rules, book, rows, step);
        report(text, number, verdict);
        at += size;
        number += 1;
    }
}

// The steps are played from the start of a run. The lines of the refused ones are written.
pub fn play_steps(
    sites: &mut [u8],
    log: &mut [u8],
    sent: &mut [u8],
    rules: Rules,
    book: &Book,
    rows: &[u64],
    steps: &[u8],
    text: &mut Text<'_>,
)
    requires { Playable rules book.now rows.now steps.now text.old (lent sites.old log.old 0 sent.old) }
    ensures { PlayedAll rules.table (commands_of book.now.bytes.now) steps.now text.new text.old sites.old
        sites.new log.new sent.new }
{
    let mut kept = Rounds::none();
    play_on(sites, log, sent, &mut kept, rules, book, rows, steps, text);
}
