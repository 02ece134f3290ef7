// What a message says besides its entries.
use crate::timestamp::Timestamp;

// The latest time and clock reading, 2^40 - 1.
pub const LATEST: u64 = 1_099_511_627_775;

// The sender, as one of n replicas of a group, with its clock and its timestamp.
#[derive(Clone, Copy, PartialEq, Eq, Debug)]
pub struct Head {
    pub n: usize,
    pub sender: usize,
    pub group: u32,
    pub clock: u64,
    pub timestamp: Timestamp,
}
