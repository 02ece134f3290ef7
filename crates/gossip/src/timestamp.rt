// Multipart timestamps: one counter for each replica of a group.
ghost use Rattle.std.specs.Prelude.{◌≡◌, ◌+◌, ◌*◌, ◌≤◌, true, [], length, take, is_ok, if◌then◌else◌, Ok, nat_lt};
ghost use Rattle.gossip.specs.Comparing.{compared, compared_lawful};
ghost use Rattle.gossip.specs.Format.{encode_timestamp, timestamp_at};
ghost use Rattle.gossip.specs.Messages.{wide_timestamp};
ghost use Rattle.gossip.specs.Numbers.{put_at};
ghost use Rattle.gossip.specs.Refusals.{unless};
ghost use Rattle.gossip.specs.declared.refusal.Refusal.TheVariants.{Replica, Full, Parts};
ghost use Rattle.gossip.specs.Timestamps.{part, under, merged, bumped, padded, exactly, exactly_bytes, zero_from, group_size};

use crate::numbers::{put, u32_at};
use crate::refusal::Refusal;
use std::array;
use std::cmp::Ordering;

// The most replicas that a group has, and so the parts of every timestamp.
pub const MOST: usize = 7;

// One counter a replica; the parts past the group's n are 0.
#[derive(Clone, Copy, PartialEq, Eq, Debug)]
pub struct Timestamp {
    pub(crate) parts: [u32; MOST],
}

impl Timestamp {
    // The timestamp that covers no change.
    pub fn zero() -> Timestamp
        ensures answer { result.parts ≡ padded [] }
    {
        Timestamp { parts: [0; MOST] }
    }

    // Keeps the larger of each part.
    pub fn merge(&mut self, other: &Timestamp)
        ensures after { self.new.parts ≡ merged self.old.parts other.now.parts }
    {
        self.parts = array::from_fn(|i| self.parts[i].max(other.parts[i]));
    }

    // One more in a replica's part; a refusal changes nothing.
    pub fn bump(&mut self, replica: usize) -> Result<(), Refusal>
        ensures answer { result ≡ unless (nat_lt replica 7) Replica (unless (nat_lt (part self.old.parts replica) 4294967295) Full (Ok tt)) }
        ensures after { self.new.parts ≡ (if is_ok result then bumped self.old.parts replica else self.old.parts) }
    {
        if replica >= MOST {
            return Err(Refusal::Replica);
        }
        let Some(next) = self.parts[replica].checked_add(1) else {
            return Err(Refusal::Full);
        };
        self.parts[replica] = next;
        Ok(())
    }

    // The timestamp of n replicas in a buffer of exactly n parts.
    pub fn read(n: usize, buffer: &[u32]) -> Result<Timestamp, Refusal>
        ensures answer { result ≡ unless (exactly n (length buffer.now)) Parts (Ok record { parts = padded buffer.now }) }
    {
        if !is_group_size(n) || buffer.len() != n {
            return Err(Refusal::Parts);
        }
        let mut parts = [0; MOST];
        parts[0..n].copy_from_slice(buffer);
        Ok(Timestamp { parts })
    }

    // Writes the first n parts over a buffer of exactly n; a refusal writes nothing.
    pub fn write(&self, n: usize, buffer: &mut [u32]) -> Result<(), Refusal>
        ensures answer { result ≡ unless (exactly n (length buffer.old)) Parts (Ok tt) }
        ensures buffer { buffer.new ≡ (if is_ok result then take n self.now.parts else buffer.old) }
    {
        if !is_group_size(n) || buffer.len() != n {
            return Err(Refusal::Parts);
        }
        buffer.copy_from_slice(&self.parts[0..n]);
        Ok(())
    }

    // The timestamp of n replicas that exactly 4n bytes spell.
    pub fn read_bytes(n: usize, bytes: &[u8]) -> Result<Timestamp, Refusal>
        ensures answer { result ≡ unless (exactly_bytes n (length bytes.now)) Parts (Ok (timestamp_at n bytes.now)) }
    {
        if !is_group_size(n) || bytes.len() != 4 * n {
            return Err(Refusal::Parts);
        }
        Ok(Timestamp::from_bytes(bytes, n))
    }

    // Writes the first n parts over exactly 4n bytes; a refusal writes nothing.
    pub fn write_bytes(&self, n: usize, out: &mut [u8]) -> Result<(), Refusal>
        ensures answer { result ≡ unless (exactly_bytes n (length out.old)) Parts (Ok tt) }
        ensures buffer { out.new ≡ (if is_ok result then encode_timestamp n self.now else out.old) }
    {
        if !is_group_size(n) || out.len() != 4 * n {
            return Err(Refusal::Parts);
        }
        self.put_parts(n, out, 0);
        Ok(())
    }

    // Writes the first n parts from a place on. That it has so many is known here by its type, and passed on as the length of what is written.
    pub(crate) fn put_parts(&self, n: usize, out: &mut [u8], at: usize)
        requires few { n ≤ 7 }
        requires within { at + 4 * n ≤ length out.old }
        ensures written { out.new ≡ put_at at (encode_timestamp n self.now) out.old }
        ensures long { length (encode_timestamp n self.now) ≡ 4 * n }
    {
        for (i, part) in self.prefix(n).iter().enumerate() {
            put(out, at + 4 * i, &part.to_le_bytes());
        }
    }

    // The first n parts, or all seven where n is larger.
    pub fn prefix(&self, n: usize) -> &[u32]
        ensures answer { result.now ≡ take n self.now.parts }
    {
        if n < MOST {
            &self.parts[0..n]
        } else {
            &self.parts
        }
    }

    // Whether it is at or under another: each of its parts is at most the other's. All are looked at, since several are compared at once then.
    pub fn is_under(&self, other: &Timestamp) -> bool
        ensures answer { result ≡ under self.now.parts other.now.parts }
        ensures alike { length self.now.parts ≡ length other.now.parts }
    {
        let mut under = true;
        for (mine, theirs) in self.parts.iter().zip(&other.parts) {
            if mine > theirs {
                under = false;
            }
        }
        under
    }

    // Whether it is a timestamp of n replicas: the parts from the n-th on are 0.
    pub fn is_of(&self, n: usize) -> bool
        ensures answer { result ≡ zero_from n self.now.parts }
        ensures wide { result ≡ true → wide_timestamp self.now ≡ true }
    {
        for (i, part) in self.parts.iter().enumerate() {
            if i >= n && *part != 0 {
                return false;
            }
        }
        true
    }

    // The timestamp that n numbers of four bytes spell.
    pub(crate) fn from_bytes(src: &[u8], n: usize) -> Timestamp
        requires { (n ≤ 7) × (4 * n ≤ length src.now) }
        ensures { result ≡ timestamp_at n src.now }
    {
        let parts = array::from_fn(|i| if i < n { u32_at(src, 4 * i) } else { 0 });
        Timestamp { parts }
    }
}

// A timestamp is at or under another where each of its parts is. Where neither is at or under the other, they have no order.
impl PartialOrd for Timestamp {
    ghost partial_cmp = { compared };

    ghost laws = { compared_lawful };

    fn partial_cmp(&self, other: &Timestamp) -> Option<Ordering> {
        match (self.is_under(other), other.is_under(self)) {
            (true, true) => Some(Ordering::Equal),
            (true, false) => Some(Ordering::Less),
            (false, true) => Some(Ordering::Greater),
            (false, false) => None,
        }
    }
}

// Whether a group can have so many replicas.
pub fn is_group_size(n: usize) -> bool
    ensures answer { result ≡ group_size n }
{
    1 <= n && n <= MOST
}
