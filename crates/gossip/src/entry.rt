// What a replica knows of one seat.
ghost use Rattle.std.specs.Prelude.{◌≡◌};
ghost use Rattle.gossip.specs.Format.{word_of, mark_of, timestamp_of};

use crate::timestamp::Timestamp;

// A seat's value; or, once it is deleted, a tombstone with the delete's time and timestamp.
#[derive(Clone, Copy, PartialEq, Eq, Debug)]
pub enum State {
    Value(u64),
    Tombstone { time: u64, timestamp: Timestamp },
}

// The marks by which messages tell values from tombstones.
pub(crate) const VALUE: u32 = 1;

pub(crate) const TOMBSTONE: u32 = 2;

impl State {
    // The mark that a message gives it.
    pub fn mark(&self) -> u32
        ensures answer { result ≡ mark_of self.now }
    {
        match self {
            State::Value(_) => VALUE,
            State::Tombstone { .. } => TOMBSTONE,
        }
    }

    // The word that a message has for it: the value, or the delete's time.
    pub fn word(&self) -> u64
        ensures answer { result ≡ word_of self.now }
    {
        match self {
            State::Value(value) => *value,
            State::Tombstone { time, .. } => *time,
        }
    }

    // The timestamp that a message has for it: the delete's, or zero for a value.
    pub fn timestamp(&self) -> Timestamp
        ensures answer { result ≡ timestamp_of self.now }
    {
        match self {
            State::Value(_) => Timestamp::zero(),
            State::Tombstone { timestamp, .. } => *timestamp,
        }
    }
}

// A seat, by its 64-bit name, and what is known of it.
#[derive(Clone, Copy, PartialEq, Eq, Debug)]
pub struct Entry {
    pub seat: u64,
    pub state: State,
}
