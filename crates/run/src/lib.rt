// A run in bytes, played on lent working memory, and what it prints into a lent buffer.
#![tactic(auto)]

ghost use Rattle.std.specs.Prelude.{◌≡◌};
ghost use Rattle.commands.specs.Book.{commands_of};
ghost use Rattle.conflicts.specs.Conflicts.{conflict_rows};
ghost use Rattle.print.specs.Print.{Printed};
ghost use Rattle.steps.specs.Steps.{steps_of};
ghost use Rattle.runs.specs.Run.{played};
ghost use Rattle.run.specs.Ran.{working, has_room, ran, run_of};
ghost use Rattle.play.specs.Played.{HoldsLast};
ghost use Rattle.run.specs.Left.{PastLeft, Worked, Left};
ghost use Rattle.run.specs.Prepared.{Playable, Roomy, Sized};

use commands::Book;
use layout::Site;
use print::Text;
use table::Rules;

// The room for any print: 33 bytes for the first line, 22 for each of 30,000 refused steps, 987 for each of 11 sites.
pub const ROOM: usize = 33 + 22 * 30000 + 987 * 11;

// The working memory that any run needs: the bytes of 11 sites,
pub const SITES: usize = 38896;

// of 705 log entries, two a site and round and one more,
pub const LOG: usize = 12690;

// and of all that is sent.
pub const SENT: usize = 189486;

// A run that is not refused is played on buffers of just their sizes, and printed.
fn print_on(
    sites: &mut [u8],
    log: &mut [u8],
    sent: &mut [u8],
    rules: Rules,
    book: &Book,
    rows: &[u64],
    steps: &[u8],
    text: &mut Text<'_>,
)
    requires { Playable rules.table steps.now text.old × Sized rules.table (working sites.old log.old sent.old) × (rows.now ≡ conflict_rows book.now.bytes.now)
        × (book.now.len ≡ rules.commands) }
    ensures { Printed text.new text.old (played rules.table (commands_of book.now.bytes.now) (steps_of steps.now))
        × HoldsLast rules.table (commands_of book.now.bytes.now) (steps_of steps.now) sites.new log.new sent.new
        × PastLeft rules.table sites.old sites.new }
{
    let table = rules.table;
    world::start(sites, sent, table);
    let faulty = table.faulty_count();
    lines::put_run_line(text, table.sites, faulty, rules.commands);
    play::play_steps(sites, log, sent, rules, book, rows, steps, text);
    report::put_site_lines(text, &sites[..], table);
}

// The run takes the first part of each buffer: of the sites' as much as its table has sites.
fn print_in(
    sites: &mut [u8],
    log: &mut [u8],
    sent: &mut [u8],
    rules: Rules,
    book: &Book,
    rows: &[u64],
    steps: &[u8],
    text: &mut Text<'_>,
)
    requires { Playable rules.table steps.now text.old × Roomy (working sites.old log.old sent.old) × (rows.now ≡ conflict_rows book.now.bytes.now)
        × (book.now.len ≡ rules.commands) }
    ensures { Printed text.new text.old (played rules.table (commands_of book.now.bytes.now) (steps_of steps.now))
        × Worked rules.table (commands_of book.now.bytes.now) (steps_of steps.now)
        (working sites.old log.old sent.old) (working sites.new log.new sent.new) }
{
    let table = rules.table;
    let size = table.sites * Site::SIZE;
    print_on(
        &mut sites[..size],
        &mut log[..LOG],
        &mut sent[..SENT],
        rules,
        book,
        rows,
        steps,
        text,
    );
}

// Whether buffers of these sizes have room for any run.
fn has_room(sites: usize, log: usize, sent: usize, out: usize) -> bool
    ensures { result ≡ has_room sites log sent out }
{
    (SITES <= sites) & (LOG <= log) & (SENT <= sent) & (ROOM <= out)
}

// What a run prints is written at the start of out. The answer is how many bytes were written: 0, and nothing is changed, where a buffer is too short.
// The run is played on sites, log and sent, whatever they hold. They hold its last world then; a run that is refused leaves them as they were.
pub fn run(input: &[u8], sites: &mut [u8], log: &mut [u8], sent: &mut [u8], out: &mut [u8]) -> usize
    ensures { (ran result out.new
        ≡ run_of input.now (working sites.old log.old sent.old) out.old)
        × Left input.now (working sites.old log.old sent.old) out.old
        (working sites.new log.new sent.new) }
{
    if !has_room(sites.len(), log.len(), sent.len(), out.len()) {
        return 0;
    }
    let mut text = Text::new(out);
    let mut noted = [0u64; conflicts::NOTED];
    match header::judge_run(input, &mut noted) {
        Ok(run) => {
            let rules = run.rules;
            let end = run.steps;
            let bytes = &input[header::HEADER..end];
            let steps = &input[end..];
            conflicts::conflict_rows(bytes, rules.commands, &mut noted);
            let book = Book {
                bytes,
                places: &noted,
                len: rules.commands,
            };
            let rows = &noted[commands::MAX_COMMANDS..];
            print_in(sites, log, sent, rules, &book, rows, steps, &mut text);
            text.end()
        }
        Err(refusal) => {
            let cause = u32::from(refusal) as usize;
            lines::put_refused_line(&mut text, cause);
            text.end()
        }
    }
}
