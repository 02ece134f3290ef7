// Looking into a replica: what it knows of a seat, and what it is.
ghost use Rattle.std.specs.Prelude.{◌≡◌, true};
ghost use Rattle.replica.specs.Contents.{memory};
ghost use Rattle.replica.specs.Memories.{sound_memory};
ghost use Rattle.replica.specs.Steps.{lookup};

use super::Replica;
use crate::membership::Membership;
use crate::outcome::Lookup;
use gossip::{State, Timestamp};

impl Replica {
    // What is known of a seat, where the asked timestamp is at or under the replica's; else the replica is behind, also where neither is at or under the other.
    pub fn lookup(&self, seat: u64, asked: &Timestamp) -> Lookup
        ensures answer { result ≡ lookup (memory self.now) seat asked.now }
    {
        if !asked.is_under(&self.timestamp) {
            return Lookup::Behind;
        }
        let timestamp = self.timestamp;
        match self.table.find(seat) {
            Some(State::Value(value)) => Lookup::Known { value, timestamp },
            Some(State::Tombstone { .. }) | None => Lookup::Unknown { timestamp },
        }
    }

    // Which replica of which group it is.
    pub fn membership(&self) -> Membership
        ensures answer { result ≡ self.now.membership }
    {
        self.membership
    }

    // The replica's timestamp.
    pub fn timestamp(&self) -> Timestamp
        ensures answer { result ≡ (memory self.now).timestamp }
        ensures sound { sound_memory self.now.membership (memory self.now) ≡ true }
    {
        self.timestamp
    }

    // The replica's clock.
    pub fn clock(&self) -> u64
        ensures answer { result ≡ (memory self.now).clock }
    {
        self.clock
    }
}
