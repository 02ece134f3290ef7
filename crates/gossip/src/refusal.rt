// Why a call of this crate is refused.
ghost use Rattle.std.specs.Prelude.{◌≡◌, Some};
ghost use Rattle.gossip.specs.Refusals.{number, cause, shown};

use std::fmt;

// Each refusal has one number in the whole service.
#[derive(Clone, Copy, PartialEq, Eq, Debug)]
pub enum Refusal {
    // No timestamp has a part for this replica.
    Replica = 1,
    // The part is as large as can be.
    Full = 7,
    // The timestamp buffer has not exactly n parts.
    Parts = 8,
    // The message has under 24 bytes.
    Short = 20,
    // Its form is not 1.
    Form = 21,
    // It is of another kind, its n is outside 1 to 7, or its sender is not below n.
    Origin = 22,
    // A count, an offset or a length is not the format's.
    Layout = 23,
    // Its clock is too large.
    Clock = 24,
    // Its seats do not rise.
    Order = 25,
    // An entry has another mark or breaks its mark's rule.
    Mark = 26,
}

impl Refusal {
    // The number by which callers and documents know the refusal.
    pub fn number(self) -> u8
        ensures answer { result ≡ number self }
    {
        self as u8
    }

    // Its cause in words.
    pub fn cause(self) -> &'static str
        ensures answer { result.now ≡ cause self }
    {
        match self {
            Refusal::Replica => "no such replica",
            Refusal::Full => "the part is 4294967295 and would rise",
            Refusal::Parts => "not exactly n parts",
            Refusal::Short => "under 24 bytes",
            Refusal::Form => "the form is not 1",
            Refusal::Origin => "another kind, n outside 1 to 7, or a sender not below n",
            Refusal::Layout => "a count, an offset or a length other than the format's",
            Refusal::Clock => "the clock is too large",
            Refusal::Order => "the seats do not rise",
            Refusal::Mark => "an entry has another mark or breaks its mark's rule",
        }
    }
}

// A refusal prints as its number and its cause.
impl fmt::Display for Refusal {
    ghost output = { λ r. Some (shown r) };

    fn fmt<W: fmt::Write>(&self, f: &mut fmt::Formatter<W>) -> fmt::Result {
        write!(f, "{} {}", self.number(), self.cause())
    }
}

// Callers can hand it on as any error.
impl std::error::Error for Refusal {}
