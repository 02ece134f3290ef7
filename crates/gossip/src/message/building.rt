// Making a message, and looking into it.
ghost use Rattle.std.specs.Prelude.{◌≡◌, true, ◌&&◌, [], ◌∷◌, ◌++◌, length, nat_le};
ghost use Rattle.gossip.specs.Contents.{started, pushed, after};
ghost use Rattle.gossip.specs.Messages.{sound, origin, allowed, latest, rises, seats, wide_timestamp, wide_state};
ghost use Rattle.gossip.specs.Refusals.{outcome};
ghost use Rattle.gossip.specs.Timestamps.{under};

use super::Gossip;
use crate::entries::{ENTRIES, Entries};
use crate::entry::{Entry, State};
use crate::head::{Head, LATEST};
use crate::refusal::Refusal;
use crate::timestamp::{Timestamp, is_group_size};

impl Gossip {
    // A message without entries. What cannot be written is refused with the number that a reader would give it.
    // Inlined, so that its 64 places are made where the caller keeps them, and not copied out of the answer.
    #[inline]
    pub fn new(head: Head) -> Result<Gossip, Refusal>
        ensures answer { result ≡ started head }
    {
        if !is_origin(head.n, head.sender) {
            return Err(Refusal::Origin);
        }
        if !head.timestamp.is_of(head.n) {
            return Err(Refusal::Layout);
        }
        if head.clock > LATEST {
            return Err(Refusal::Clock);
        }
        Ok(Gossip {
            head,
            entries: Entries::new(),
        })
    }

    // One more entry, behind the others; a refusal changes nothing.
    pub fn push(&mut self, entry: Entry) -> Result<(), Refusal>
        ensures answer { outcome (λ _. self.new) result ≡ pushed self.old entry }
        ensures after { self.new ≡ after (pushed self.old entry) self.old }
    {
        if self.entries().len() >= ENTRIES {
            return Err(Refusal::Layout);
        }
        if !self.rises_to(entry.seat) {
            return Err(Refusal::Order);
        }
        if !is_allowed(&entry.state, &self.head.timestamp) {
            return Err(Refusal::Mark);
        }
        self.entries.push(entry);
        Ok(())
    }

    // The message's head.
    pub fn head(&self) -> Head
        ensures answer { result ≡ self.now.head }
        ensures sound { sound self.now ≡ true }
    {
        self.head
    }

    // The message's entries, in the rising order of their seats.
    pub fn entries(&self) -> &[Entry]
        ensures answer { result.now ≡ self.now.entries }
        ensures sound { sound self.now ≡ true }
    {
        self.entries.as_slice()
    }

    // Whether a seat is above those of the entries, of which the last has the highest.
    fn rises_to(&self, seat: u64) -> bool
        ensures answer { result ≡ rises (seats self.now.entries ++ seat ∷ []) }
    {
        match self.entries().last() {
            Some(last) => last.seat < seat,
            None => true,
        }
    }
}

// Whether there are one to seven replicas, and the sender is one of them.
pub(crate) fn is_origin(n: usize, sender: usize) -> bool
    ensures { result ≡ origin n sender }
{
    is_group_size(n) && sender < n
}

// Whether a state may stand in a message with this timestamp. One that may is as wide as the timestamp, since it is at or under it.
fn is_allowed(state: &State, top: &Timestamp) -> bool
    ensures answer { result ≡ allowed top.now state.now }
    ensures wide { result ≡ true → wide_timestamp top.now ≡ true → wide_state state.now ≡ true }
{
    match state {
        State::Value(_) => true,
        State::Tombstone { time, timestamp } => is_covered(*time, timestamp, top),
    }
}

// Whether a tombstone has a time, and a timestamp at or under the message's.
fn is_covered(time: u64, timestamp: &Timestamp, top: &Timestamp) -> bool
    ensures answer { result ≡ (nat_le time latest && under timestamp.now.parts top.now.parts) }
    ensures alike { length timestamp.now.parts ≡ length top.now.parts }
{
    time <= LATEST && timestamp.is_under(top)
}
