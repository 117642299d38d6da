// Refusals: why an input or a step was turned down, and the number that document 01 gives to each cause.
#![tactic(auto)]

ghost use Rattle.std.specs.Prelude.{◌≡◌};
ghost use Rattle.refusals.specs.Refusals.{number_of, code_of};

// One cause of document 01's table "When a sheet or step is turned down".
#[derive(Clone, Copy)]
pub enum Refusal {
    // an unknown kind, a cut operand, a bike or start out of range, a 65th command
    Book,
    // a cut header, a book length past the run's end, a site table against its limits
    Table,
    // an unknown step code, cut operands, a lent log that ends in a cut entry
    Form,
    // a site, command, round or acknowledgment number out of range, a set with a command beyond the book
    Range,
    // a correct site where a faulty one is meant, or the reverse
    Role,
    // a step that is not enabled, or a message never sent
    Disabled,
    // a third log entry of a site in a round
    ThirdEntry,
    // a turn in the last round that would propose
    LastRound,
    // a run over its greatest size, or a lent buffer too short
    Size,
    // a record of deliveries that has no room for what a step would deliver
    Full,
}

// What a judge says: a step is taken, or refused.
pub type Verdict = Result<(), Refusal>;

// The number of a refusal.
impl From<Refusal> for u32 {
    ghost from_gives = { λ refusal number. number ≡ number_of refusal };

    fn from(refusal: Refusal) -> u32 {
        match refusal {
            Refusal::Book => 1,
            Refusal::Table => 2,
            Refusal::Form => 3,
            Refusal::Range => 4,
            Refusal::Role => 5,
            Refusal::Disabled => 6,
            Refusal::ThirdEntry => 7,
            Refusal::LastRound => 8,
            Refusal::Size => 9,
            Refusal::Full => 9,
        }
    }
}

// The number that a call of C answers: 0 where the input was taken. It is no From, since Result and u32 are both the library's.
pub fn code(verdict: Verdict) -> u32
    ensures { result ≡ code_of verdict }
{
    match verdict {
        Ok(()) => 0,
        Err(refusal) => u32::from(refusal),
    }
}
