// A replica's saved state: its gossip message, and for each replica of the group the latest timestamp heard from it. Here it has its one spelling in bytes.
// It knows no tables and no steps, so that a program that only looks at checkpoints needs no replica. Nothing here allocates.
#![tactic(auto)]

mod checkpoint;
pub mod laws;
mod reader;
mod unreadable;
mod writer;

pub use checkpoint::Checkpoint;
pub use unreadable::Unreadable;
