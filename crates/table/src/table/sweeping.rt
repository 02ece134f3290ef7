// Removing the tombstones that are no longer needed.
ghost use Rattle.std.specs.Prelude.{◌≡◌, length};
ghost use Rattle.table.specs.Entries.{under_rows, expired, swept, removable};
ghost use Rattle.table.specs.Tables.{Sorted};

use super::Table;
use gossip::{State, Timestamp};

impl Table {
    // Removes each tombstone that no late message can need and that every row covers, and answers how many.
    pub fn sweep(&mut self, grace: u64, clock: u64, rows: &[Timestamp]) -> usize
        ensures answer { result ≡ length (removable grace clock rows.now self.old) }
        ensures after { self.new ≡ swept grace clock rows.now self.old }
        ensures sorted { Sorted self.new }
    {
        let before = self.entries.len();
        self.entries
            .retain(|entry| !is_expired(&entry.state, grace, clock, rows));
        before - self.entries.len()
    }
}

// Whether a state is a tombstone whose time and grace are over, and that every row covers.
fn is_expired(state: &State, grace: u64, clock: u64, rows: &[Timestamp]) -> bool
    ensures answer { result ≡ expired grace clock rows.now state.now }
{
    match state {
        State::Value(_) => false,
        State::Tombstone { time, timestamp } => {
            let is_over = time.checked_add(grace).is_some_and(|end| end < clock);
            is_over && is_under(timestamp, rows)
        }
    }
}

// Whether a timestamp is at or under every row.
fn is_under(timestamp: &Timestamp, rows: &[Timestamp]) -> bool
    ensures answer { result ≡ under_rows timestamp.now.parts rows.now }
{
    rows.iter().all(|row| timestamp.is_under(row))
}
