// Changing a table's entries one at a time, and all at once.
ghost use Rattle.std.specs.Prelude.{◌≡◌, [], is_ok, if◌then◌else◌};
ghost use Rattle.std.specs.Borrow.{sem, follows_so};
ghost use Rattle.std.specs.Option.{ghost_name_of as name_of, option_map};
ghost use Rattle.gossip.specs.contracts.entry.State.{the_row as state-row};
ghost use Rattle.table.specs.Entries.{find, changed, put, fits};
ghost use Rattle.table.specs.Tables.{Sorted};
ghost use Rattle.table.specs.contracts.table.Table.{the_row as table-row};

use super::Table;
use crate::full::Full;
use gossip::{ENTRIES, Entry, State};

impl Table {
    // Lends the state of a seat's entry, to be changed in its place; every other entry stays. None without an entry, and nothing changes then.
    pub fn state_mut(&mut self, seat: u64) -> Option<&mut State>
        ensures* after { sem 𝓛 (follows_so table-row state-row self.entry.ghost_name (name_of result) (λ w n. (n ≡ changed self.old seat w) × Sorted n) (λ n. (n ≡ self.old) × Sorted n)) }
        ensures answer { option_map (λ x. x.now) result ≡ find self.old seat }
    {
        let place = self.place(seat).ok()?;
        let entry = self.entries.get_mut(place)?;
        Some(&mut entry.state)
    }

    // The seat's entry, changed or added in its place; refused where a table would have more than 64, and nothing changes then. There is memory for 64, so that the insertion cannot fail.
    pub fn put(&mut self, seat: u64, state: State) -> Result<(), Full>
        ensures answer { is_ok result ≡ fits (put self.old seat state) }
        ensures after { self.new ≡ (if is_ok result then put self.old seat state else self.old) }
        ensures sorted { Sorted self.new }
    {
        match self.place(seat) {
            Ok(place) => self.entries[place].state = state,
            Err(place) => {
                if self.entries.len() >= ENTRIES {
                    return Err(Full);
                }
                let _ = self.entries.insert(place, Entry { seat, state });
            }
        }
        Ok(())
    }

    // Takes out every entry, and keeps the memory.
    pub fn clear(&mut self)
        ensures after { self.new ≡ [] }
        ensures sorted { Sorted self.new }
    {
        self.entries.clear();
    }

    // Becomes a copy of another table, in its own memory, which suffices.
    pub fn copy_from(&mut self, other: &Table)
        ensures after { self.new ≡ other.now }
        ensures sorted { Sorted self.new }
    {
        self.clear();
        let _ = self.entries.extend_from_slice(&other.entries);
    }
}
