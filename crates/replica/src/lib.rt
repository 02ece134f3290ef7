// What one replica knows and does, with no other replica, store or transport in sight: enter, delete, lookup, receive a message and sweep, and its message and its checkpoint as bytes.
// All memory is asked for when a replica is made; no later call allocates or fails for want of memory.
#![tactic(auto)]

pub mod laws;
mod membership;
mod outcome;
mod refusal;
mod replica;

pub use membership::Membership;
pub use outcome::{Change, Lookup};
pub use refusal::Refusal;
pub use replica::Replica;
