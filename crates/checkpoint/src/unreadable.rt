// Why a checkpoint cannot be read.
ghost use Rattle.std.specs.Prelude.{◌≡◌, Some};
ghost use Rattle.checkpoint.specs.Refusals.{number, carried, cause, shown};
ghost use Rattle.checkpoint.specs.declared.unreadable.Unreadable.TheVariants.{Message};

use gossip::Refusal;
use std::fmt;

// 29: what stands in its bytes is no checkpoint, or another's.
#[derive(Clone, Copy, PartialEq, Eq, Debug)]
pub enum Unreadable {
    // Its message is refused.
    Message(Refusal),
    // Its rows are not those of the message's sender, or its length is not the format's.
    Rows,
    // It is of another group, n or replica.
    Owner,
}

// Its number in the whole service.
const NUMBER: u8 = 29;

impl Unreadable {
    // The number by which callers and documents know the refusal.
    pub fn number(self) -> u8
        ensures answer { result ≡ number self }
    {
        NUMBER
    }

    // The number of the message's refusal, or 0.
    pub fn carried(self) -> u8
        ensures answer { result ≡ carried self }
    {
        match self {
            Unreadable::Message(refusal) => refusal.number(),
            Unreadable::Rows | Unreadable::Owner => 0,
        }
    }

    // Its cause in words.
    pub fn cause(self) -> &'static str
        ensures answer { result.now ≡ cause self }
    {
        match self {
            Unreadable::Message(refusal) => refusal.cause(),
            Unreadable::Rows => "its rows or its length are not the format's",
            Unreadable::Owner => "it is of another group, n or replica",
        }
    }
}

// The refusal prints as its number, the number that it carries and its cause.
impl fmt::Display for Unreadable {
    ghost output = { λ r. Some (shown r) };

    fn fmt<W: fmt::Write>(&self, f: &mut fmt::Formatter<W>) -> fmt::Result {
        write!(f, "{} {} {}", self.number(), self.carried(), self.cause())
    }
}

// Callers can hand it on as any error.
impl std::error::Error for Unreadable {}

// A checkpoint whose message is refused is refused with it.
impl From<Refusal> for Unreadable {
    ghost from_gives = { λ refusal unreadable. unreadable ≡ Message refusal };

    fn from(refusal: Refusal) -> Unreadable {
        Unreadable::Message(refusal)
    }
}
