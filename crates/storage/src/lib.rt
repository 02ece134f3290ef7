// Where checkpoints are kept: for each number 0 to 6 nothing or 1 to 3320 bytes, of which a store does not know what they are. `Store` says what saving and loading do; `SlotStore` has a place for each number, and `LogStore` appends what is saved to a log, so that a stop between any two steps of a call counts as one before the call or after it.
// All memory is asked for when a store is made; no later call allocates or fails for want of memory.
#![tactic(auto)]

mod log;
mod numbers;
mod pieces;
mod refusals;
mod slots;
mod store;

pub use log::LogStore;
pub use refusals::{NotALog, Refusal};
pub use slots::SlotStore;
pub use store::{LAST_NUMBER, MAX_BYTES, Store};
