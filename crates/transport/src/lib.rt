// What carries messages, as bytes, from one who posts them to addressees by number.
// This crate says once what every transport promises (the trait `Transport`), so that a service can be proved over any of them, and it has a mailbox in memory and a layer that lets messages go out of date. It does not know what messages say, who the addressees are, or what time it is: callers give the clock's reading with each call. A transport may lose messages and never makes one up. All memory is asked for when a transport is made; no later call allocates or fails for want of memory.
#![tactic(auto)]

mod expiring;
pub mod laws;
mod mailbox;
mod refusal;
mod shipped;
mod transport;

pub use expiring::Expiring;
pub use mailbox::Mailbox;
pub use refusal::Refusal;
pub use shipped::{ExpiringMailbox, expiring_mailbox};
pub use transport::{MOST_BYTES, Transport};
