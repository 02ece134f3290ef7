// Making a table, and looking into it.
ghost use Rattle.std.specs.Prelude.{◌≡◌, [], length, slice_get, IfOk, IfErr};
ghost use Rattle.table.specs.Entries.{find};
ghost use Rattle.table.specs.Tables.{Sorted, IsPlace, IsGap};

use super::Table;
use gossip::{ENTRIES, Entry, State};
use std::alloc::{AllocError, Global};

impl Table {
    // A table without entries, with memory for all that it can ever hold.
    pub fn new(heap: Global) -> Result<Table, AllocError>
        ensures answer { IfOk result (λ t. t ≡ []) }
        ensures sorted { IfOk result Sorted }
    {
        let entries = Vec::with_capacity(heap, ENTRIES)?;
        Ok(Table { entries })
    }

    // How many entries there are.
    pub fn len(&self) -> usize
        ensures answer { result ≡ length self.now }
        ensures sorted { Sorted self.now }
    {
        self.entries.len()
    }

    // The entries, in the order of their seats.
    pub fn entries(&self) -> &[Entry]
        ensures answer { result.now ≡ self.now }
        ensures sorted { Sorted self.now }
    {
        &self.entries
    }

    // The entry at an index, in the order of seats; none past the end.
    pub fn entry(&self, i: usize) -> Option<Entry>
        ensures answer { result ≡ slice_get self.now i }
    {
        self.entries.get(i).copied()
    }

    // What is known of a seat; none without an entry.
    pub fn find(&self, seat: u64) -> Option<State>
        ensures answer { result ≡ find self.now seat }
    {
        let place = self.place(seat).ok()?;
        Some(self.entries[place].state)
    }

    // Where a seat's entry stands, or else where it would go: since seats rise, each look at the middle halves what is left to search.
    pub(super) fn place(&self, seat: u64) -> Result<usize, usize>
        ensures found { IfOk result (IsPlace self.now seat) }
        ensures absent { IfErr result (IsGap self.now seat) }
    {
        self.entries.binary_search_by_key(&seat, |entry| entry.seat)
    }
}
