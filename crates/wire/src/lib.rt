// Numbers in lent bytes, least significant byte first.
#![tactic(auto)]

ghost use Rattle.std.specs.Prelude.{◌≡◌, ◌+◌, ◌≤◌, ◌<◌, ℕ, length, replicate};
ghost use Rattle.std.specs.Int.{w16, w32, cast_signed, cast_unsigned};
ghost use Rattle.wire.specs.Wire.{bytes, read_le, splice};

// A number that takes a fixed number of bytes, which hold a word.
pub trait Number {
    // How many.
    ghost width: { ℕ };

    // The number that a word of so many bytes stands for.
    ghost of_word: { ℕ → Self };

    // The word that stands for a number.
    ghost word: { Self → ℕ };

    // The number at a position.
    fn get(s: &[u8], at: usize) -> Self
        requires { at + width ≤ length s.now }
        ensures { result ≡ of_word (read_le width s.now at) };

    // The number is written at a position.
    fn put(self, s: &mut [u8], at: usize)
        requires { at + width ≤ length s.old }
        ensures { s.new ≡ splice s.old at (bytes width (word self)) };
}

impl Number for u8 {
    ghost width = { 1 };

    ghost of_word = { λ n. n };

    ghost word = { λ x. x };

    fn get(s: &[u8], at: usize) -> u8 {
        s[at]
    }

    fn put(self, s: &mut [u8], at: usize) {
        s[at] = self;
    }
}

impl Number for u16 {
    ghost width = { 2 };

    ghost of_word = { λ n. n };

    ghost word = { λ x. x };

    fn get(s: &[u8], at: usize) -> u16 {
        u16::from_le_bytes(s[at..at + 2].try_into().unwrap())
    }

    fn put(self, s: &mut [u8], at: usize) {
        s[at..at + 2].copy_from_slice(&self.to_le_bytes());
    }
}

impl Number for u32 {
    ghost width = { 4 };

    ghost of_word = { λ n. n };

    ghost word = { λ x. x };

    fn get(s: &[u8], at: usize) -> u32 {
        u32::from_le_bytes(s[at..at + 4].try_into().unwrap())
    }

    fn put(self, s: &mut [u8], at: usize) {
        s[at..at + 4].copy_from_slice(&self.to_le_bytes());
    }
}

impl Number for u64 {
    ghost width = { 8 };

    ghost of_word = { λ n. n };

    ghost word = { λ x. x };

    fn get(s: &[u8], at: usize) -> u64 {
        u64::from_le_bytes(s[at..at + 8].try_into().unwrap())
    }

    fn put(self, s: &mut [u8], at: usize) {
        s[at..at + 8].copy_from_slice(&self.to_le_bytes());
    }
}

// Two's complement.
impl Number for i16 {
    ghost width = { 2 };

    ghost of_word = { cast_signed w16 };

    ghost word = { cast_unsigned w16 };

    fn get(s: &[u8], at: usize) -> i16 {
        u16::get(s, at).cast_signed()
    }

    fn put(self, s: &mut [u8], at: usize) {
        self.cast_unsigned().put(s, at);
    }
}

impl Number for i32 {
    ghost width = { 4 };

    ghost of_word = { cast_signed w32 };

    ghost word = { cast_unsigned w32 };

    fn get(s: &[u8], at: usize) -> i32 {
        u32::get(s, at).cast_signed()
    }

    fn put(self, s: &mut [u8], at: usize) {
        self.cast_unsigned().put(s, at);
    }
}

// The number at a position.
pub fn get<N: Number>(s: &[u8], at: usize) -> N
    requires { at + N.width ≤ length s.now }
    ensures { result ≡ N.of_word (read_le N.width s.now at) }
{
    N::get(s, at)
}

// A number is written at a position.
pub fn put<N: Number>(s: &mut [u8], at: usize, x: N)
    requires { at + N.width ≤ length s.old }
    ensures { s.new ≡ splice s.old at (bytes N.width (N.word x)) }
{
    x.put(s, at);
}

// Every byte becomes 0.
pub fn clear(s: &mut [u8])
    ensures { s.new ≡ replicate (length s.old) 0 }
{
    s.fill(0);
}
