// A replica's entries: at most 64, in strictly rising order of seats.
// It knows no replicas and no group, and of messages only that they have entries. All memory is asked for when a table is made; no later call allocates or fails for want of memory.
#![tactic(auto)]

mod combining;
mod full;
pub mod laws;
mod table;

pub use combining::combine;
pub use full::Full;
pub use table::Table;
