// A replica as it lies in memory.
ghost use Rattle.std.specs.Prelude.{◌≡◌, true};
ghost use Rattle.replica.specs.Memories.{sound_memory};

use crate::membership::Membership;
use gossip::{MOST, Timestamp};
use table::Table;

mod changing;
mod looking;
mod making;
mod receiving;
mod restoring;
mod sweeping;
mod telling;

// One replica of a group: its clock, its timestamp, its entries, and the latest timestamp heard from each replica.
#[derive(Drop)]
pub struct Replica {
    membership: Membership,
    clock: u64,
    timestamp: Timestamp,
    table: Table,
    rows: [Timestamp; MOST],
    ghost sound: { sound_memory membership record { clock = clock; timestamp = timestamp; entries = table; rows = rows } ≡ true },
}
