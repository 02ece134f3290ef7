// Why a step of a replica is refused.
ghost use Rattle.std.specs.Prelude.{◌≡◌, Some};
ghost use Rattle.replica.specs.Refusals.{number, cause, shown};
ghost use Rattle.replica.specs.declared.refusal.Refusal.TheVariants.{Full, Message};

use std::fmt;

// Each refusal has one number in the whole service.
#[derive(Clone, Copy, PartialEq, Eq, Debug)]
pub enum Refusal {
    // 1: the group has no such replica.
    Replica,
    // 3: the code is not a value of the kind.
    Value,
    // 4: a time or a clock reading is too large.
    Time,
    // 5: the time and the grace are over.
    Late,
    // 6: more than 64 entries would result.
    Full,
    // 7: the own part is as large as can be.
    Spent,
    // 13: no group has so many replicas.
    Size,
    // 20 to 26: the bytes are no message.
    Message(gossip::Refusal),
    // 27: the message is of another group or n.
    Group,
}

impl Refusal {
    // The number by which callers and documents know the refusal.
    pub fn number(self) -> u8
        ensures answer { result ≡ number self }
    {
        match self {
            Refusal::Replica => 1,
            Refusal::Value => 3,
            Refusal::Time => 4,
            Refusal::Late => 5,
            Refusal::Full => 6,
            Refusal::Spent => 7,
            Refusal::Size => 13,
            Refusal::Message(refusal) => refusal.number(),
            Refusal::Group => 27,
        }
    }

    // Its cause in words.
    pub fn cause(self) -> &'static str
        ensures answer { result.now ≡ cause self }
    {
        match self {
            Refusal::Replica => "no such replica",
            Refusal::Value => "not a value of the kind",
            Refusal::Time => "a time or a clock reading is too large",
            Refusal::Late => "the time and the grace are over",
            Refusal::Full => "more than 64 entries would result",
            Refusal::Spent => "the own part is 4294967295 and would rise",
            Refusal::Size => "n is outside 1 to 7",
            Refusal::Message(refusal) => refusal.cause(),
            Refusal::Group => "a message of another group or n",
        }
    }
}

// A refusal prints as its number and its cause.
impl fmt::Display for Refusal {
    ghost output = { λ r. Some (shown r) };

    fn fmt<W: fmt::Write>(&self, f: &mut fmt::Formatter<W>) -> fmt::Result {
        write!(f, "{} {}", self.number(), self.cause())
    }
}

// Callers can hand it on as any error.
impl std::error::Error for Refusal {}

// Bytes that are no message refuse the step.
impl From<gossip::Refusal> for Refusal {
    ghost from_gives = { λ refusal given. given ≡ Message refusal };

    fn from(refusal: gossip::Refusal) -> Refusal {
        Refusal::Message(refusal)
    }
}

// So does a table that is full.
impl From<table::Full> for Refusal {
    ghost from_gives = { λ _ given. given ≡ Full };

    fn from(_: table::Full) -> Refusal {
        Refusal::Full
    }
}
