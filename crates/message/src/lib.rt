// What a site sends to all others, in bytes: its turn writes them, a host carries them unread, and another site takes them.
#![tactic(auto)]

ghost use Rattle.std.specs.Prelude.{true, ◌≡◌, ◌≤◌, length};
ghost use Rattle.wire.specs.Wire.{splice};
ghost use Rattle.message.specs.Messages.{message_size, kind_number, kind_from, is_message, message_of, message_bytes};

use sets::Set;

// An acknowledgment, or the check message that goes with a proposal.
#[derive(Clone, Copy)]
pub enum Kind {
    Acknowledgment,
    Check,
}

// A message of some round. Who sent it is not said in it: the host vouches for that.
#[derive(Clone, Copy)]
pub struct Message {
    pub kind: Kind,
    pub round: u8,
    pub set: Set,
}

impl Message {
    // The bytes of a message: its kind, its round, its set.
    pub const BYTES: usize = Message::SET + Set::BYTES;
    // Where each part stands.
    const KIND: usize = 0;

    const ROUND: usize = 1;

    const SET: usize = 2;
    // The numbers of the kinds.
    const ACKNOWLEDGMENT: u8 = 1;

    const CHECK: u8 = 2;

    // Whether bytes have the form of a message: its length, and one of its kinds.
    pub fn is_message(bytes: &[u8]) -> bool
        ensures { result ≡ is_message bytes.now }
    {
        if bytes.len() != Message::BYTES {
            return false;
        }
        let number: u8 = wire::get(bytes, Message::KIND);
        (number == Message::ACKNOWLEDGMENT) | (number == Message::CHECK)
    }

    // The message that bytes are.
    pub fn read(bytes: &[u8]) -> Message
        requires { is_message bytes.now ≡ true }
        ensures { result ≡ message_of bytes.now }
    {
        let number: u8 = wire::get(bytes, Message::KIND);
        let kind = kind_from(number);
        let round: u8 = wire::get(bytes, Message::ROUND);
        let set = Set::read(bytes, Message::SET);
        Message { kind, round, set }
    }

    // The message is written at the start of a buffer.
    pub fn write(self, out: &mut [u8])
        requires { message_size ≤ length out.old }
        ensures { out.new ≡ splice out.old 0 (message_bytes self) }
    {
        wire::put(out, Message::KIND, u8::from(self.kind));
        wire::put(out, Message::ROUND, self.round);
        self.set.write(out, Message::SET);
    }
}

// The number of a kind.
impl From<Kind> for u8 {
    ghost from_gives = { λ kind number. number ≡ kind_number kind };

    fn from(kind: Kind) -> u8 {
        match kind {
            Kind::Acknowledgment => Message::ACKNOWLEDGMENT,
            Kind::Check => Message::CHECK,
        }
    }
}

// The kind of a number that is one of theirs. It is no TryFrom, since is_message has found that it is one.
fn kind_from(number: u8) -> Kind
    ensures { result ≡ kind_from number }
{
    if number == Message::ACKNOWLEDGMENT {
        Kind::Acknowledgment
    } else {
        Kind::Check
    }
}
