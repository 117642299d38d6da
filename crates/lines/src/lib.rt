// The lines of a run's print, written into a text.
#![tactic(auto)]

ghost use Rattle.std.specs.Prelude.{length};
ghost use Rattle.print.specs.Print.{HasRoom, Printed};
ghost use Rattle.lines.specs.Lines.{counted, numbered, line_end, run_line, step_line, refused_line, site_head, delivery_text};

use print::Text;

// A number is written, and a text after it.
fn put_counted(text: &mut Text<'_>, x: usize, after: &[u8])
    requires { HasRoom text.old (length (counted x after.now)) }
    ensures { Printed text.new text.old (counted x after.now) }
{
    text.decimal(x);
    text.put(after);
}

// A number of two digits is written, and a text after it. Both are words of the definition, and differ in one call.
fn put_numbered(text: &mut Text<'_>, x: usize, after: &[u8])
    requires { HasRoom text.old (length (numbered x after.now)) }
    ensures { Printed text.new text.old (numbered x after.now) }
{
    text.digits(2, x);
    text.put(after);
}

// The first line of a run that is played.
#[tactic(auto, unfolding(crate::specs::Lines::run_line))]
pub fn put_run_line(text: &mut Text<'_>, sites: usize, faulty: usize, commands: usize)
    requires { HasRoom text.old (length (run_line sites faulty commands)) }
    ensures { Printed text.new text.old (run_line sites faulty commands) }
{
    text.put(b"run ");
    put_counted(text, sites, b" sites ");
    put_counted(text, faulty, b" liars ");
    put_counted(text, commands, b" commands\n");
}

// The line of a refused step.
#[tactic(auto, unfolding(crate::specs::Lines::step_line))]
pub fn put_step_line(text: &mut Text<'_>, step: usize, refusal: usize)
    requires { HasRoom text.old (length (step_line step refusal)) }
    ensures { Printed text.new text.old (step_line step refusal) }
{
    text.put(b"step ");
    put_counted(text, step, b" refused ");
    put_counted(text, refusal, b"\n");
}

// The line of a refused header, book or size.
#[tactic(auto, unfolding(crate::specs::Lines::refused_line))]
pub fn put_refused_line(text: &mut Text<'_>, refusal: usize)
    requires { HasRoom text.old (length (refused_line refusal)) }
    ensures { Printed text.new text.old (refused_line refusal) }
{
    text.put(b"refused ");
    put_counted(text, refusal, b"\n");
}

// The start of a site's line.
#[tactic(auto, unfolding(crate::specs::Lines::site_head))]
pub fn put_site_head(text: &mut Text<'_>, site: usize, round: usize)
    requires { HasRoom text.old (length (site_head site round)) }
    ensures { Printed text.new text.old (site_head site round) }
{
    text.put(b"site ");
    put_numbered(text, site, b" round ");
    put_numbered(text, round, b" delivered");
}

// A delivery in a site's line.
#[tactic(auto, unfolding(crate::specs::Lines::delivery_text))]
pub fn put_delivery(text: &mut Text<'_>, command: usize, answer: i32)
    requires { HasRoom text.old (length (delivery_text command answer)) }
    ensures { Printed text.new text.old (delivery_text command answer) }
{
    text.put(b" ");
    put_numbered(text, command, b"=");
    text.signed(answer);
}

// The end of a line.
pub fn put_line_end(text: &mut Text<'_>)
    requires { HasRoom text.old (length line_end) }
    ensures { Printed text.new text.old line_end }
{
    text.put(b"\n");
}
