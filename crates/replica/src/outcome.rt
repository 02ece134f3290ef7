// What a replica answers.
use gossip::Timestamp;

// The answer to an enter or a delete, with the replica's timestamp then: it was accepted as a change, or it changes nothing.
#[derive(Clone, Copy, PartialEq, Eq, Debug)]
pub enum Change {
    Set(Timestamp),
    Same(Timestamp),
}

// The answer to a lookup: a value, or that the seat has none, with the replica's timestamp; or that the replica is behind the timestamp that was asked.
#[derive(Clone, Copy, PartialEq, Eq, Debug)]
pub enum Lookup {
    Known { value: u64, timestamp: Timestamp },
    Unknown { timestamp: Timestamp },
    Behind,
}
