// Texts and numbers in ASCII, written into a lent buffer one after another.
#![tactic(auto)]

ghost use Rattle.std.specs.Prelude.{◌≡◌, ◌+◌, ◌≤◌, length};
ghost use Rattle.print.specs.Print.{digits, width, decimal, signed_decimal, Wrote, HasRoom, Printed};

// How many digits a number has: one, and one more for each power of ten from 10 on that it reaches.
fn digit_count(x: usize) -> usize
    ensures { result ≡ width x }
{
    x.checked_ilog10().unwrap_or(0) as usize + 1
}

// A text is written at a position. The answer is the position after it.
pub fn put_text(out: &mut [u8], at: usize, text: &[u8]) -> usize
    requires { at + length text.now ≤ length out.old }
    ensures { Wrote out.new result out.old at text.now }
{
    let end = at + text.len();
    out[at..end].copy_from_slice(text);
    end
}

// What is printed: a lent buffer, and where the text in it ends.
#[derive(Drop)]
pub struct Text<'a> {
    out: &'a mut [u8],
    end: usize,
}

impl<'a> Text<'a> {
    // No text yet.
    pub fn new(out: &'a mut [u8]) -> Text<'a>
        ensures same { result.out.ghost_name ≡ out.entry.ghost_name }
        ensures now { result.out.now ≡ out.old }
        ensures end { result.end ≡ 0 }
    {
        Text { out, end: 0 }
    }

    // What ends at a position: what is written from there on is a text of its own, and the bytes before it stay.
    pub fn at(out: &'a mut [u8], end: usize) -> Text<'a>
        ensures same { result.out.ghost_name ≡ out.entry.ghost_name }
        ensures now { result.out.now ≡ out.old }
        ensures end { result.end ≡ end }
    {
        Text { out, end }
    }

    // How many bytes the text has.
    pub fn end(&self) -> usize
        ensures { result ≡ self.now.end }
    {
        self.end
    }

    // A text is written.
    pub fn put(&mut self, text: &[u8])
        requires { HasRoom self.old (length text.now) }
        ensures { Printed self.new self.old text.now }
    {
        let out = &mut *self.out;
        self.end = put_text(out, self.end, text);
    }

    // The last n digits of a number are written, leading zeros included.
    pub fn digits(&mut self, n: usize, x: usize)
        requires { HasRoom self.old n }
        ensures { Printed self.new self.old (digits n x) }
    {
        let out = &mut *self.out;
        let at = self.end;
        let mut left = x;
        for i in (0..n).rev() {
            out[at + i] = 48 + (left % 10) as u8;
            left /= 10;
        }
        self.end = at + n;
    }

    // A number is written without leading zeros.
    pub fn decimal(&mut self, x: usize)
        requires { HasRoom self.old (length (decimal x)) }
        ensures { Printed self.new self.old (decimal x) }
    {
        let n = digit_count(x);
        self.digits(n, x);
    }

    // A signed number is written: a minus sign where it is below 0, no plus sign, no leading zeros.
    pub fn signed(&mut self, x: i32)
        requires { HasRoom self.old (length (signed_decimal x)) }
        ensures { Printed self.new self.old (signed_decimal x) }
    {
        let size = x.unsigned_abs() as usize;
        if x < 0 {
            self.put(b"-");
        }
        self.decimal(size);
    }
}
