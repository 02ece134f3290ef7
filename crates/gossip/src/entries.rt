// The entries of a message in memory of their own, so that a message can be copied and needs no heap.
ghost use Rattle.std.specs.Prelude.{◌≡◌, ◌<◌, [], ◌∷◌, ◌++◌, length};

use crate::entry::{Entry, State};
use std::marker::Model;

// The most entries that a message has, and so a table.
pub const ENTRIES: usize = 64;

// What stands in a place that no entry has taken.
const BLANK: Entry = Entry {
    seat: 0,
    state: State::Value(0),
};

// At most 64 entries, in the order in which they came: the first `count` of the places. The others are blank, so that equal lists lie in memory alike.
#[derive(Clone, Copy)]
pub(crate) struct Entries {
    places: [Entry; ENTRIES],
    count: usize,
}

impl Model for Entries {
    ghost use Rattle.std.specs.Prelude.{◌≡◌, ◌≤◌, List, length, take};
    ghost use Rattle.gossip.specs.declared.entry.Entry.{Entry};

    ghost Value = { List Entry };

    ghost use Rattle.gossip.specs.Blanks.{padded_blank, are_blank_from, places_back};

    ghost view = { λ e. take e.count e.places };

    ghost invariant = { λ e. (e.count ≤ 64) × (length e.places ≡ 64) × are_blank_from e.count e.places };

    ghost inverse = { λ es. record { places = padded_blank es; count = length es } };

    ghost inverse_ok = { λ e h. places_back (λ places count. record { places = places; count = count }) e.count e.places h.0 h.1 h.2 };
}

impl Entries {
    // No entries.
    pub(crate) fn new() -> Entries
        ensures { result ≡ [] }
    {
        Entries {
            places: [BLANK; ENTRIES],
            count: 0,
        }
    }

    // Adds an entry behind the others. The count is read once, since the compiler cannot tell that it is not in the place that is written.
    pub(crate) fn push(&mut self, entry: Entry)
        requires { length self.old < 64 }
        ensures { self.new ≡ self.old ++ entry ∷ [] }
    {
        let count = self.count;
        self.places[count] = entry;
        self.count = count + 1;
    }

    // The entries as a slice.
    pub(crate) fn as_slice(&self) -> &[Entry]
        ensures { result.now ≡ self.now }
    {
        &self.places[0..self.count]
    }
}
