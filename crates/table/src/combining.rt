// What two replicas know of one seat, together.
ghost use Rattle.std.specs.Prelude.{◌≡◌};
ghost use Rattle.table.specs.Entries.{combine};

use gossip::{Lattice, State};

// Values join, a tombstone outlasts a value, and two tombstones keep the later time and the merged timestamps.
pub fn combine<L: Lattice>(held: State, other: State) -> State
    ensures answer { result ≡ combine L.kind.join held other }
{
    match (held, other) {
        (State::Value(x), State::Value(y)) => State::Value(L::join(x, y)),
        (State::Value(_), tombstone) | (tombstone, State::Value(_)) => tombstone,
        (
            State::Tombstone {
                time,
                mut timestamp,
            },
            State::Tombstone {
                time: later,
                timestamp: with,
            },
        ) => {
            timestamp.merge(&with);
            State::Tombstone {
                time: time.max(later),
                timestamp,
            }
        }
    }
}
