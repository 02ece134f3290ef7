// Taking in the messages of other replicas.
ghost use Rattle.std.specs.Prelude.{◌≡◌, ◌<◌, true, set as update, nat_le};
ghost use Rattle.gossip.specs.Messages.{latest};
ghost use Rattle.checkpoint.specs.Checkpoints.{row};
ghost use Rattle.replica.specs.Contents.{memory, receipt_of, Took};
ghost use Rattle.gossip.specs.Refusals.{outcome};
ghost use Rattle.replica.specs.Steps.{step, receives, receive_bytes, hear, together};

use super::Replica;
use crate::refusal::Refusal;
use gossip::{Gossip, Head, LATEST, Lattice, MOST, Timestamp};

impl Replica {
    // Takes in a message. The answer is the replica's timestamp once it has learnt from it; none where the message has no news.
    pub fn receive<L: Lattice>(
        &mut self,
        message: &Gossip,
        reading: u64,
    ) -> Result<Option<Timestamp>, Refusal>
        ensures step { Took (step L.kind self.old.membership (memory self.old) (receives (message.now) reading)) self.old (outcome receipt_of result) self.new }
    {
        if reading > LATEST {
            return Err(Refusal::Time);
        }
        self.hear::<L>(message, reading)
    }

    // Takes in a message given as bytes, with the same answer.
    pub fn receive_bytes<L: Lattice>(
        &mut self,
        bytes: &[u8],
        reading: u64,
    ) -> Result<Option<Timestamp>, Refusal>
        ensures step { Took (receive_bytes L.kind self.old.membership (memory self.old) bytes.now reading) self.old (outcome receipt_of result) self.new }
    {
        if reading > LATEST {
            return Err(Refusal::Time);
        }
        let message = Gossip::read::<L>(bytes)?;
        self.hear::<L>(&message, reading)
    }

    // Takes in a message that was read, unless it is another group's or has no news. The table is merged first, since it alone can refuse.
    fn hear<L: Lattice>(
        &mut self,
        message: &Gossip,
        reading: u64,
    ) -> Result<Option<Timestamp>, Refusal>
        requires { nat_le reading latest ≡ true }
        ensures step { Took (hear L.kind self.old.membership (memory self.old) (message.now) reading) self.old (outcome receipt_of result) self.new }
    {
        let head = message.head();
        if head.group != self.membership.group || head.n != self.membership.n {
            return Err(Refusal::Group);
        }
        if head.timestamp.is_under(&self.timestamp) {
            return Ok(None);
        }
        let mut timestamp = self.timestamp;
        timestamp.merge(&head.timestamp);
        let rows = self.rows_with(&head, timestamp);
        self.table.merge::<L>(message)?;
        self.clock = self.clock.max(reading);
        self.timestamp = timestamp;
        self.rows = rows;
        Ok(Some(timestamp))
    }

    // The rows once a message is taken in: its sender's row takes in its timestamp, and the own row is the replica's new timestamp.
    fn rows_with(&self, head: &Head, timestamp: Timestamp) -> [Timestamp; MOST]
        requires { head.now.sender < 7 }
        ensures answer { result ≡ update (update self.now.rows head.now.sender (together (row self.now.rows head.now.sender) head.now.timestamp)) self.now.membership.replica timestamp }
    {
        let mut rows = self.rows;
        let mut heard = rows[head.sender];
        heard.merge(&head.timestamp);
        rows[head.sender] = heard;
        rows[self.membership.replica] = timestamp;
        rows
    }
}
