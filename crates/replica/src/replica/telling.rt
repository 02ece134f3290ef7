// What a replica tells and saves: its message and its checkpoint, as values and as bytes.
ghost use Rattle.std.specs.Prelude.{◌≡◌, true, [], length, take, Ok};
ghost use Rattle.gossip.specs.Format.{decode, encode};
ghost use Rattle.gossip.specs.Numbers.{put_at};
ghost use Rattle.replica.specs.Contents.{memory};
ghost use Rattle.replica.specs.Memories.{message_of, saved_of, of_kind_memory};
ghost use Rattle.replica.specs.Restoring.{encode_memory, decode_memory};

use super::Replica;
use checkpoint::Checkpoint;
use gossip::{Gossip, Head, Lattice, ROOM};

impl Replica {
    // The message that tells what the replica knows.
    pub fn message(&self) -> Gossip
        ensures answer { result ≡ message_of self.now.membership (memory self.now) }
    {
        let mut message = self.opening();
        for entry in self.table.entries() {
            let _ = message.push(*entry);
        }
        message
    }

    // Its checkpoint: the message, and the rows.
    pub fn checkpoint(&self) -> Checkpoint
        ensures answer { result ≡ saved_of self.now.membership (memory self.now) }
    {
        Checkpoint::new(self.message(), self.rows).unwrap()
    }

    // Writes the message to the front of the bytes and leaves the rest. The answer is its length.
    pub fn write_message<L: Lattice>(&self, out: &mut [u8; ROOM]) -> usize
        ensures answer { result ≡ length (encode L.kind (message_of self.now.membership (memory self.now))) }
        ensures buffer { out.new ≡ put_at 0 (encode L.kind (message_of self.now.membership (memory self.now))) out.old }
        ensures back { of_kind_memory L.kind (memory self.now) ≡ true → decode L.kind (take result out.new) ≡ Ok (message_of self.now.membership (memory self.now)) }
    {
        self.message().spell::<L>(out)
    }

    // Writes the checkpoint to the front of the bytes and leaves the rest. The answer is its length.
    pub fn write_checkpoint<L: Lattice>(&self, out: &mut [u8; ROOM]) -> usize
        ensures answer { result ≡ length (encode_memory L.kind self.now.membership (memory self.now)) }
        ensures buffer { out.new ≡ put_at 0 (encode_memory L.kind self.now.membership (memory self.now)) out.old }
        ensures back { of_kind_memory L.kind (memory self.now) ≡ true → decode_memory L.kind self.now.membership (take result out.new) ≡ Ok (memory self.now) }
    {
        self.checkpoint().write::<L>(out)
    }

    // Its message without the entries.
    fn opening(&self) -> Gossip
        ensures answer { result ≡ record { head = (message_of self.now.membership (memory self.now)).head; entries = [] } }
    {
        let head = Head {
            n: self.membership.n,
            sender: self.membership.replica,
            group: self.membership.group,
            clock: self.clock,
            timestamp: self.timestamp,
        };
        Gossip::new(head).unwrap()
    }
}
