// Taking in what another replica tells.
ghost use Rattle.std.specs.Prelude.{◌≡◌, is_ok, if◌then◌else◌};
ghost use Rattle.table.specs.Entries.{fits, absorbed, merge, fresh};
ghost use Rattle.table.specs.Tables.{Sorted};

use super::Table;
use crate::combining::combine;
use crate::full::Full;
use gossip::{ENTRIES, Entry, Gossip, Lattice};

impl Table {
    // Takes in a message's entries; refused where more than 64 would result, and nothing changes then. So the fresh seats are counted first, and no entry is refused once all fit.
    pub fn merge<L: Lattice>(&mut self, message: &Gossip) -> Result<(), Full>
        ensures answer { is_ok result ≡ fits (merge L.kind.join self.old message.now.entries) }
        ensures after { self.new ≡ (if is_ok result then merge L.kind.join self.old message.now.entries else self.old) }
        ensures sorted { Sorted self.new }
    {
        let entries = message.entries();
        if self.len() + self.fresh(entries) > ENTRIES {
            return Err(Full);
        }
        for entry in entries {
            let _ = self.absorb::<L>(entry);
        }
        Ok(())
    }

    // How many of the entries have a seat that has none here.
    fn fresh(&self, entries: &[Entry]) -> usize
        ensures answer { result ≡ fresh self.now entries.now }
    {
        entries
            .iter()
            .filter(|entry| self.find(entry.seat).is_none())
            .count()
    }

    // Takes in one entry: what it says of its seat is combined with what is held.
    fn absorb<L: Lattice>(&mut self, told: &Entry) -> Result<(), Full>
        ensures answer { is_ok result ≡ fits (absorbed L.kind.join self.old told.now.seat told.now.state) }
        ensures after { self.new ≡ (if is_ok result then absorbed L.kind.join self.old told.now.seat told.now.state else self.old) }
    {
        let state = self
            .find(told.seat)
            .map_or(told.state, |held| combine::<L>(held, told.state));
        self.put(told.seat, state)
    }
}
