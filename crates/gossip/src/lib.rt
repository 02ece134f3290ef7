// What the replicas of a seat service tell each other: multipart timestamps, the kinds of values that seats have, and the gossip message with its one spelling in bytes.
// It knows no tables, no replicas and no group, so that a program that only reads or writes messages needs nothing else. Nothing here allocates.
#![tactic(auto)]

mod entries;
mod entry;
mod head;
mod kind;
mod lattice;
pub mod laws;
mod message;
mod numbers;
mod reader;
mod refusal;
mod timestamp;
mod writer;

pub use entries::ENTRIES;
pub use entry::{Entry, State};
pub use head::{Head, LATEST};
pub use kind::{Kind, UnknownKind};
pub use lattice::{Counts, Lattice, Ports};
pub use message::Gossip;
pub use reader::FRONT;
pub use refusal::Refusal;
pub use timestamp::{MOST, Timestamp, is_group_size};
pub use writer::ROOM;
