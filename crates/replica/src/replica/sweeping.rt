// Forgetting the tombstones that no late message can need.
ghost use Rattle.gossip.specs.Lattices.{Kind};
ghost use Rattle.replica.specs.Answers.{swept};
ghost use Rattle.replica.specs.Contents.{memory, Took};
ghost use Rattle.gossip.specs.Refusals.{outcome};
ghost use Rattle.replica.specs.Steps.{step, sweeps};

use super::Replica;
use crate::refusal::Refusal;
use gossip::LATEST;

impl Replica {
    // Removes each tombstone whose time and grace are over and whose timestamp is at or under the row of every replica, and answers how many.
    pub fn sweep(&mut self, reading: u64) -> Result<usize, Refusal>
        ensures step { (k : Kind) → Took (step k self.old.membership (memory self.old) (sweeps reading)) self.old (outcome swept result) self.new }
    {
        if reading > LATEST {
            return Err(Refusal::Time);
        }
        let clock = self.clock.max(reading);
        let rows = self.rows;
        let removed = self.table.sweep(
            u64::from(self.membership.grace),
            clock,
            &rows[0..self.membership.n],
        );
        self.clock = clock;
        Ok(removed)
    }
}
