// A replica's entries as they lie in memory.
use gossip::Entry;
use std::marker::Model;

mod changing;
mod merging;
mod reading;
mod sweeping;

// The entries, in the rising order of their seats. There is memory for all from the start, so that no later call asks for any.
#[derive(Drop)]
pub struct Table {
    entries: Vec<Entry>,
}

// Contracts see a table as the list of its entries. Of these the invariant reads the seats alone, so that a state can be lent for a change.
impl Model for Table {
    ghost use Rattle.std.specs.Prelude.{◌≤◌, List, vec_capacity};
    ghost use Rattle.gossip.specs.declared.entry.Entry.{Entry};
    ghost use Rattle.table.specs.Tables.{Sorted};

    ghost Value = { List Entry };

    ghost view = { λ t. t.entries.items };

    ghost invariant = { λ t. record { sorted : Sorted t.entries.items; room : 64 ≤ vec_capacity t.entries } };
}
