// Why a call of this crate is refused.
ghost use Rattle.std.specs.Prelude.{◌≡◌, Some};
ghost use Rattle.storage.specs.Refusals.{cause, not_a_log_cause};

use std::fmt;

// Why a store does not save or load.
#[derive(Clone, Copy, PartialEq, Eq, Debug)]
pub enum Refusal {
    // The number is above 6.
    Number,
    // No bytes are to be saved, or more than 3320.
    Length,
    // The buffer has less than 3320 bytes.
    Room,
}

impl Refusal {
    // Its cause in words.
    pub fn cause(self) -> &'static str
        ensures answer { result.now ≡ cause self }
    {
        match self {
            Refusal::Number => "the number is above 6",
            Refusal::Length => "the length is not 1 to 3320",
            Refusal::Room => "the buffer has less than 3320 bytes",
        }
    }
}

// The refusal prints as its cause.
impl fmt::Display for Refusal {
    ghost output = { λ r. Some (cause r) };

    fn fmt<W: fmt::Write>(&self, f: &mut fmt::Formatter<W>) -> fmt::Result {
        f.write_str(self.cause())
    }
}

impl std::error::Error for Refusal {}

// The bytes are not those of a log.
#[derive(Clone, Copy, PartialEq, Eq, Debug)]
pub struct NotALog;

impl NotALog {
    // Its cause in words.
    pub fn cause(self) -> &'static str
        ensures answer { result.now ≡ not_a_log_cause }
    {
        "the bytes are not those of a log"
    }
}

// The refusal prints as its cause.
impl fmt::Display for NotALog {
    ghost output = { λ r. Some not_a_log_cause };

    fn fmt<W: fmt::Write>(&self, f: &mut fmt::Formatter<W>) -> fmt::Result {
        f.write_str(self.cause())
    }
}

impl std::error::Error for NotALog {}
