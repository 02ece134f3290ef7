// Why a message is not taken.
ghost use Rattle.std.specs.Prelude.{◌≡◌, Some};
ghost use Rattle.transport.specs.Refusals.{cause};
ghost use Rattle.transport.specs.declared.refusal.Refusal.TheVariants.{Length};

use arrayvec::CapacityError;
use std::fmt;

// The length is looked at first.
#[derive(Clone, Copy, PartialEq, Eq, Debug)]
pub enum Refusal {
    // The message has no byte, or more than the transport's longest.
    Length,
    // The transport is not open for the addressee at this reading.
    Closed,
}

impl Refusal {
    // Its cause in words.
    pub fn cause(self) -> &'static str
        ensures answer { result.now ≡ cause self }
    {
        match self {
            Refusal::Length => "the message is empty or too long",
            Refusal::Closed => "the transport is not open for the addressee",
        }
    }
}

// A refusal prints as its cause.
impl fmt::Display for Refusal {
    ghost output = { λ r. Some (cause r) };

    fn fmt<W: fmt::Write>(&self, f: &mut fmt::Formatter<W>) -> fmt::Result {
        f.write_str(self.cause())
    }
}

impl std::error::Error for Refusal {}

// What does not fit a place of the most bytes is too long for any transport.
impl From<CapacityError> for Refusal {
    ghost from_gives = { λ _ r. r ≡ Length };

    fn from(_error: CapacityError) -> Self {
        Self::Length
    }
}
