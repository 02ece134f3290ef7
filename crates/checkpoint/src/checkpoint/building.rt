// Making a checkpoint, and looking into it.
ghost use Rattle.std.specs.Prelude.{◌≡◌, true, drop};
ghost use Rattle.std.specs.List.{list_all};
ghost use Rattle.gossip.specs.Messages.{wide_timestamp};
ghost use Rattle.gossip.specs.Timestamps.{zero_from};
ghost use Rattle.checkpoint.specs.Checkpoints.{sound_saved, rows_all_hold, row};
ghost use Rattle.checkpoint.specs.Contents.{joined_to};

use super::Checkpoint;
use crate::unreadable::Unreadable;
use gossip::{Gossip, MOST, Timestamp};

impl Checkpoint {
    // A message with the rows of its sender. Rows that no reader would take are refused.
    pub fn new(message: Gossip, rows: [Timestamp; MOST]) -> Result<Checkpoint, Unreadable>
        ensures answer { result ≡ joined_to message rows }
    {
        let head = message.head();
        if !rows_hold(&rows, head.sender, &head.timestamp) {
            return Err(Unreadable::Rows);
        }
        if !are_zero(&rows, head.n) {
            return Err(Unreadable::Rows);
        }
        Ok(Checkpoint { message, rows })
    }

    // The replica's message.
    pub fn message(&self) -> Gossip
        ensures answer { result ≡ self.now.message }
        ensures sound { sound_saved self.now ≡ true }
    {
        self.message
    }

    // The latest timestamp heard from each replica; those past the group's n are zero.
    pub fn rows(&self) -> [Timestamp; MOST]
        ensures answer { result ≡ self.now.rows }
        ensures sound { sound_saved self.now ≡ true }
    {
        self.rows
    }
}

// Whether each row is at or under the timestamp `top`, and the row of replica `own` at or above it too.
// Rows that are under a timestamp are as wide as it, since all have as many parts.
fn rows_hold(rows: &[Timestamp; MOST], own: usize, top: &Timestamp) -> bool
    ensures answer { result ≡ rows_all_hold own top.now rows.now }
    ensures wide { result ≡ true → wide_timestamp top.now ≡ true → list_all wide_timestamp rows.now ≡ true }
{
    for row in rows {
        if !row.is_under(top) {
            return false;
        }
    }
    top.is_under(&row_of(rows, own))
}

// A replica's row, zero for a replica that there is not.
fn row_of(rows: &[Timestamp; MOST], replica: usize) -> Timestamp
    ensures { result ≡ row rows.now replica }
{
    rows.get(replica).copied().unwrap_or(Timestamp::zero())
}

// Whether the rows from the n-th on are zero.
fn are_zero(rows: &[Timestamp; MOST], n: usize) -> bool
    ensures { result ≡ list_all (λ row. zero_from 0 row.parts) (drop n rows.now) }
{
    rows.iter().skip(n).all(|row| row.is_of(0))
}
