// Making a replica.
ghost use Rattle.std.specs.Prelude.{◌≡◌, is_ok, IfOk, if◌then◌else◌};
ghost use Rattle.replica.specs.Contents.{memory};
ghost use Rattle.replica.specs.Memories.{fresh, alone, joins};

use super::Replica;
use crate::membership::Membership;
use crate::refusal::Refusal;
use gossip::{MOST, Timestamp, is_group_size};
use std::alloc::{AllocError, Global};
use table::Table;

// The membership of a replica that has joined no group yet.
const ALONE: Membership = Membership {
    n: 1,
    replica: 0,
    group: 0,
    grace: 0,
};

impl Replica {
    // A replica that knows nothing, the only one of a group of its own, with memory for all that it can ever hold.
    pub fn new(heap: Global) -> Result<Replica, AllocError>
        ensures answer { IfOk result (λ s. (memory s ≡ fresh) × (s.membership ≡ alone)) }
    {
        let table = Table::new(heap)?;
        let zero = Timestamp::zero();
        Ok(Replica {
            membership: ALONE,
            clock: 0,
            timestamp: zero,
            table,
            rows: [zero; MOST],
        })
    }

    // Forgets everything and becomes a replica of a group, in the memory that is there; a refusal changes nothing.
    pub fn begin(&mut self, membership: Membership) -> Result<(), Refusal>
        ensures answer { result ≡ joins membership }
        ensures after { memory self.new ≡ (if is_ok result then fresh else memory self.old) }
        ensures member { self.new.membership ≡ (if is_ok result then membership else self.old.membership) }
    {
        if !is_group_size(membership.n) {
            return Err(Refusal::Size);
        }
        if membership.replica >= membership.n {
            return Err(Refusal::Replica);
        }
        let zero = Timestamp::zero();
        self.table.clear();
        self.membership = membership;
        self.clock = 0;
        self.timestamp = zero;
        self.rows = [zero; MOST];
        Ok(())
    }
}
