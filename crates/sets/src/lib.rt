// Sets of command numbers: command m is in a set where bit m of its word is set.
#![tactic(auto)]

ghost use Rattle.std.specs.Prelude.{false, ◌≡◌, ◌+◌, ◌≤◌, ◌<◌, length};
ghost use Rattle.sets.specs.Sets.{capacity, in_set, empty_of, with_of, union_of, without_of, common_of};
ghost use Rattle.sets.specs.Sets.{beyond_of, is_empty_of, within_of, size_of, first_of, rest_of, set_bytes, read_set, write_set, load_set, store_set};

mod members;

pub use members::Members;

// A set of command numbers below 64.
#[derive(Clone, Copy)]
pub struct Set {
    pub bits: u64,
}

impl Set {
    // The commands that a set can hold: those below this number.
    pub const CAPACITY: usize = 64;
    // The bytes of a set.
    pub const BYTES: usize = 8;

    // The set of no command.
    pub fn empty() -> Set
        ensures { result ≡ empty_of }
    {
        Set { bits: 0 }
    }

    // Whether command m, of those that a set can hold, is in the set.
    pub fn holds(self, m: usize) -> bool
        requires { m < capacity }
        ensures { result ≡ in_set self m }
    {
        (self.bits >> m) % 2 == 1
    }

    // Whether command m is in the set.
    pub fn has(self, m: usize) -> bool
        ensures { result ≡ in_set self m }
    {
        if m < Set::CAPACITY {
            self.holds(m)
        } else {
            false
        }
    }

    // The set and one command more.
    pub fn with(self, m: usize) -> Set
        requires { m < capacity }
        ensures { result ≡ with_of self m }
    {
        let bit = 1u64 << m;
        Set {
            bits: self.bits | bit,
        }
    }

    // The commands of either set.
    pub fn union(self, other: Set) -> Set
        ensures { result ≡ union_of self other }
    {
        Set {
            bits: self.bits | other.bits,
        }
    }

    // The commands that are not in the other set.
    pub fn without(self, other: Set) -> Set
        ensures { result ≡ without_of self other }
    {
        Set {
            bits: self.bits ^ (self.bits & other.bits),
        }
    }

    // The commands of both sets.
    pub fn common(self, other: Set) -> Set
        ensures { result ≡ common_of self other }
    {
        Set {
            bits: self.bits & other.bits,
        }
    }

    // Whether the set has no command.
    pub fn is_empty(self) -> bool
        ensures { result ≡ is_empty_of self }
    {
        self.bits == 0
    }

    // The commands from n on.
    fn beyond(n: usize) -> Set
        ensures { result ≡ beyond_of n }
    {
        if n < Set::CAPACITY {
            let bits = (u64::MAX >> n) << n;
            Set { bits }
        } else {
            Set { bits: 0 }
        }
    }

    // Whether every command of the set is below n.
    pub fn within(self, n: usize) -> bool
        ensures { result ≡ within_of self n }
    {
        self.common(Set::beyond(n)).is_empty()
    }

    // How many commands the set has.
    pub fn size(self) -> usize
        ensures { result ≡ size_of self }
    {
        let ones = u64::count_ones(self.bits);
        ones as usize
    }

    // The least command of the set; the capacity where there is none, since the word has so many zeros then.
    pub fn first(self) -> usize
        ensures { result ≡ first_of self }
    {
        let zeros = u64::trailing_zeros(self.bits);
        zeros as usize
    }

    // The set without its least command. A word and the word before it differ in the word's lowest bit and those below, where they have none in common.
    pub fn rest(self) -> Set
        requires { is_empty_of self ≡ false }
        ensures { result ≡ rest_of self }
    {
        Set {
            bits: self.bits & (self.bits - 1),
        }
    }

    // The set that stands in 8 bytes at a position, least significant byte first.
    pub fn read(bytes: &[u8], at: usize) -> Set
        requires { at + set_bytes ≤ length bytes.now }
        ensures { result ≡ read_set bytes.now at }
    {
        Set {
            bits: wire::get(bytes, at),
        }
    }

    // The set is written to 8 bytes at a position.
    pub fn write(self, bytes: &mut [u8], at: usize)
        requires { at + set_bytes ≤ length bytes.old }
        ensures { bytes.new ≡ write_set bytes.old at self }
    {
        wire::put(bytes, at, self.bits);
    }

    // The k-th set of a slice of words.
    pub fn load(words: &[u64], k: usize) -> Set
        requires { k < length words.now }
        ensures { result ≡ load_set words.now k }
    {
        let bits = words[k];
        Set { bits }
    }

    // The set becomes the k-th of a slice of words.
    pub fn store(self, words: &mut [u64], k: usize)
        requires { k < length words.old }
        ensures { words.new ≡ store_set words.old k self }
    {
        words[k] = self.bits;
    }
}
