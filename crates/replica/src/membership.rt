// Which replica of which group.

// Replica `replica` of the n of a group, which has a number and a grace: how long a late message may still arrive.
#[derive(Clone, Copy, PartialEq, Eq, Debug)]
pub struct Membership {
    pub n: usize,
    pub replica: usize,
    pub group: u32,
    pub grace: u32,
}
