// The theorems of this crate, one function each, so that a check asks for their proofs.
ghost use Rattle.table.specs.TableLaws.{Lookups, Orders, Sizes};
ghost use Rattle.table.specs.Tables.{Sorted};

use crate::table::Table;

// Every table has at most 64 entries, in the strictly rising order of their seats.
pub fn tables_are_sorted(table: &Table)
    ensures sorted { Sorted table.now }
{
    let _ = table.entries();
}

// What a look-up of any seat finds after a put, a merge and a sweep.
pub fn lookups_follow()
    ensures lookups { Lookups }
{}

// Seats rise after each of them.
pub fn order_is_kept()
    ensures orders { Orders }
{}

// How many entries there are after each of them.
pub fn sizes_are_known()
    ensures sizes { Sizes }
{}
