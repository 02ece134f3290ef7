// Becoming again what a checkpoint says.
ghost use Rattle.std.specs.Prelude.{◌≡◌, true, ◌&&◌, OnOk, ◌==◌};
ghost use Rattle.gossip.specs.Refusals.{outcome};
ghost use Rattle.replica.specs.Contents.{memory};
ghost use Rattle.replica.specs.Memories.{of_kind_memory};
ghost use Rattle.replica.specs.Restoring.{encode_memory, decode_memory, restored};

use super::Replica;
use checkpoint::{Checkpoint, Unreadable};
use gossip::{Head, Lattice};

impl Replica {
    // Becomes what the bytes of its checkpoint say, in the memory that is there; a refusal changes nothing.
    pub fn restore<L: Lattice>(&mut self, bytes: &[u8]) -> Result<(), Unreadable>
        ensures answer { outcome (λ _. memory self.new) result ≡ decode_memory L.kind self.old.membership bytes.now }
        ensures after { memory self.new ≡ restored (decode_memory L.kind self.old.membership bytes.now) (memory self.old) }
        ensures kept { self.new.membership ≡ self.old.membership }
        ensures spelling { OnOk result (bytes.now ≡ encode_memory L.kind self.old.membership (memory self.new)) }
        ensures kind { OnOk result (of_kind_memory L.kind (memory self.new) ≡ true) }
    {
        let checkpoint = Checkpoint::read::<L>(bytes)?;
        let message = checkpoint.message();
        let head = message.head();
        if !self.is_own(&head) {
            return Err(Unreadable::Owner);
        }
        self.table.clear();
        let _ = self.table.merge::<L>(&message);
        self.clock = head.clock;
        self.timestamp = head.timestamp;
        self.rows = checkpoint.rows();
        Ok(())
    }

    // Whether a head is of this replica: of its group, of its n, and sent by it.
    fn is_own(&self, head: &Head) -> bool
        ensures answer { result ≡ (head.now.group == self.now.membership.group && (head.now.n == self.now.membership.n && head.now.sender == self.now.membership.replica)) }
    {
        head.group == self.membership.group
            && head.n == self.membership.n
            && head.sender == self.membership.replica
    }
}
