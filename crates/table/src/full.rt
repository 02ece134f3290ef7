// Why a call of this crate is refused.
ghost use Rattle.std.specs.Prelude.{◌≡◌, Some};
ghost use Rattle.table.specs.Refusals.{number, cause, shown};

use std::fmt;

// 6: more than 64 entries would result.
#[derive(Clone, Copy, PartialEq, Eq, Debug)]
pub struct Full;

// Its number in the whole service.
const NUMBER: u8 = 6;

impl Full {
    // The number by which callers and documents know the refusal.
    pub fn number(self) -> u8
        ensures answer { result ≡ number self }
    {
        NUMBER
    }

    // Its cause in words.
    pub fn cause(self) -> &'static str
        ensures answer { result.now ≡ cause self }
    {
        "more than 64 entries would result"
    }
}

// The refusal prints as its number and its cause.
impl fmt::Display for Full {
    ghost output = { λ r. Some (shown r) };

    fn fmt<W: fmt::Write>(&self, f: &mut fmt::Formatter<W>) -> fmt::Result {
        write!(f, "{} {}", self.number(), self.cause())
    }
}

// Callers can hand it on as any error.
impl std::error::Error for Full {}
