// What a host in C may ask: comparing timestamps, and reading messages into areas of memory.
// Nothing is kept from call to call and nothing is allocated. The crate host_c gives the calls their names in C and their answers as numbers.
#![tactic(auto)]

mod reading;
mod refusal;

pub use reading::{compare, read_entry, read_head};
pub use refusal::HostRefusal;
