// Enter and delete: the changes that callers ask for.
ghost use Rattle.std.specs.Prelude.{◌≡◌, ◌+◌, max, true, ◌&&◌, if◌then◌else◌, Some, None, Ok, nat_eq, nat_le, nat_lt};
ghost use Rattle.gossip.specs.Lattices.{Kind};
ghost use Rattle.gossip.specs.Messages.{latest, wide_state, allowed};
ghost use Rattle.gossip.specs.declared.entry.State.{State as AnyState};
ghost use Rattle.gossip.specs.declared.entry.State.TheVariants.{Value};
ghost use Rattle.table.specs.Entries.{find, put, fits};
ghost use Rattle.replica.specs.Contents.{memory, change_of, Took};
ghost use Rattle.gossip.specs.Refusals.{outcome};
ghost use Rattle.replica.specs.Steps.{step, enters, deletes, raise, stored, entered, has_tombstone};

use super::Replica;
use crate::outcome::Change;
use crate::refusal::Refusal;
use gossip::{ENTRIES, LATEST, Lattice, State, Timestamp};

impl Replica {
    // Joins a value to the seat's.
    pub fn enter<L: Lattice>(
        &mut self,
        seat: u64,
        value: u64,
        time: u64,
        reading: u64,
    ) -> Result<Change, Refusal>
        ensures step { Took (step L.kind self.old.membership (memory self.old) (enters seat value time reading)) self.old (outcome change_of result) self.new }
    {
        if !are_times(time, reading) {
            return Err(Refusal::Time);
        }
        if !L::is_value(value) {
            return Err(Refusal::Value);
        }
        if self.is_late(time, reading) {
            return Err(Refusal::Late);
        }
        let Some(state) = self.entered::<L>(seat, value) else {
            return Ok(Change::Same(self.timestamp));
        };
        let raised = self.raised(seat)?;
        self.store(seat, state, raised, reading);
        Ok(Change::Set(raised))
    }

    // Makes the seat's entry a tombstone, also where there is none.
    pub fn delete(&mut self, seat: u64, time: u64, reading: u64) -> Result<Change, Refusal>
        ensures step { (k : Kind) → Took (step k self.old.membership (memory self.old) (deletes seat time reading)) self.old (outcome change_of result) self.new }
    {
        if !are_times(time, reading) {
            return Err(Refusal::Time);
        }
        if self.is_late(time, reading) {
            return Err(Refusal::Late);
        }
        if self.is_deleted(seat) {
            return Ok(Change::Same(self.timestamp));
        }
        let raised = self.raised(seat)?;
        let tombstone = State::Tombstone {
            time,
            timestamp: raised,
        };
        self.store(seat, tombstone, raised, reading);
        Ok(Change::Set(raised))
    }

    // Whether a time and the grace are over at the clock now.
    fn is_late(&self, time: u64, reading: u64) -> bool
        requires { nat_le time latest ≡ true }
        ensures answer { result ≡ nat_lt (time + self.now.membership.grace) (max self.now.clock reading) }
    {
        time + u64::from(self.membership.grace) < self.clock.max(reading)
    }

    // The state that an enter gives a seat; none where nothing changes.
    fn entered<L: Lattice>(&self, seat: u64, value: u64) -> Option<State>
        ensures answer { result ≡ entered L.kind value (find self.now.table seat) }
    {
        match self.table.find(seat) {
            Some(State::Value(held)) => joined::<L>(held, value),
            Some(State::Tombstone { .. }) => None,
            None => Some(State::Value(value)),
        }
    }

    // Whether the seat has a tombstone.
    fn is_deleted(&self, seat: u64) -> bool
        ensures answer { result ≡ has_tombstone (find self.now.table seat) }
    {
        matches!(self.table.find(seat), Some(State::Tombstone { .. }))
    }

    // Whether an entry of the seat, changed or added, fits the table.
    fn has_room(&self, seat: u64) -> bool
        ensures answer { (x : AnyState) → result ≡ fits (put self.now.table seat x) }
    {
        self.table.len() < ENTRIES || self.table.find(seat).is_some()
    }

    // The timestamp that a change of the seat's entry has.
    fn raised(&self, seat: u64) -> Result<Timestamp, Refusal>
        ensures answer { (x : AnyState) → result ≡ raise self.now.membership (memory self.now) seat x }
    {
        if !self.has_room(seat) {
            return Err(Refusal::Full);
        }
        let mut raised = self.timestamp;
        let Ok(()) = raised.bump(self.membership.replica) else {
            return Err(Refusal::Spent);
        };
        Ok(raised)
    }

    // Gives the seat the state, as a change of this replica that has the timestamp.
    fn store(&mut self, seat: u64, state: State, raised: Timestamp, reading: u64)
        requires raised { raise self.old.membership (memory self.old) seat state ≡ Ok raised }
        requires reading { nat_le reading latest ≡ true }
        requires wide { wide_state state ≡ true }
        requires allowed { allowed raised state ≡ true }
        ensures after { memory self.new ≡ stored self.old.membership (memory self.old) reading seat state raised }
        ensures kept { self.new.membership ≡ self.old.membership }
    {
        let _ = self.table.put(seat, state);
        self.clock = self.clock.max(reading);
        self.timestamp = raised;
        self.rows[self.membership.replica] = raised;
    }
}

// The value that an enter gives a seat that holds one; none where the join is the value held.
fn joined<L: Lattice>(held: u64, value: u64) -> Option<State>
    ensures { result ≡ (if nat_eq (L.kind.join held value) held then None else Some (Value (L.kind.join held value))) }
{
    let joined = L::join(held, value);
    if joined == held {
        None
    } else {
        Some(State::Value(joined))
    }
}

// Whether both are in the range of times.
fn are_times(time: u64, reading: u64) -> bool
    ensures { result ≡ (nat_le time latest && nat_le reading latest) }
{
    time <= LATEST && reading <= LATEST
}
