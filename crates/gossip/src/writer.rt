// Writing a gossip message.
ghost use Rattle.std.specs.Prelude.{◌≡◌, ◌+◌, ◌*◌, ◌≤◌, true, length, take, IfOk, if◌then◌else◌, Ok};
ghost use Rattle.std.specs.List.{list_all};
ghost use Rattle.gossip.specs.Format.{decode, encode, encode_entry, encode_timestamp, entry_length, head_numbers, head_widths, message_length, timestamp_of};
ghost use Rattle.gossip.specs.Messages.{of_kind, of_kind_state};
ghost use Rattle.gossip.specs.Numbers.{joined, put_at, spell};
ghost use Rattle.gossip.specs.Refusals.{unless};
ghost use Rattle.gossip.specs.declared.refusal.Refusal.TheVariants.{Mark};

use crate::entry::{Entry, State};
use crate::lattice::Lattice;
use crate::message::Gossip;
use crate::numbers::put;
use crate::reader::{FORM, FRONT};
use crate::refusal::Refusal;
use crate::timestamp::Timestamp;

// Room for the longest checkpoint, and so for the longest message, which has 3,124 bytes.
pub const ROOM: usize = 3_320;

impl Gossip {
    // Writes the message, as one of the lattice's kind, to the front of the bytes and leaves the rest. The answer is its length.
    // A value that is not of the kind is refused, and nothing is written then.
    pub fn write<L: Lattice>(&self, out: &mut [u8; ROOM]) -> Result<usize, Refusal>
        ensures answer { result ≡ unless (of_kind L.kind self.now) Mark (Ok (length (encode L.kind self.now))) }
        ensures buffer { out.new ≡ (if of_kind L.kind self.now then put_at 0 (encode L.kind self.now) out.old else out.old) }
        ensures back { IfOk result (λ len. decode L.kind (take len out.new) ≡ Ok self.now) }
    {
        if !are_of_kind::<L>(self.entries()) {
            return Err(Refusal::Mark);
        }
        Ok(self.spell::<L>(out))
    }

    // Writes the message, as one of the lattice's kind, to the front of the bytes and leaves the rest. The answer is its length.
    // The values are not looked at, so it reads back exactly where they are of the kind: for callers that know that they are.
    pub fn spell<L: Lattice>(&self, out: &mut [u8; ROOM]) -> usize
        ensures answer { result ≡ length (encode L.kind self.now) }
        ensures buffer { out.new ≡ put_at 0 (encode L.kind self.now) out.old }
        ensures back { of_kind L.kind self.now ≡ true → decode L.kind (take result out.new) ≡ Ok self.now }
        ensures fits { result ≤ 3124 }
    {
        let n = self.head.n;
        let entries_at = FRONT + 4 * n;
        let len = self.put_front::<L>(out);
        self.head.timestamp.put_parts(n, out, FRONT);
        put_entries(out, entries_at, n, self.entries());
        len
    }

    // Writes the fixed front of the message's spelling, what stands before its timestamp. The answer is the length of the whole, which the front says.
    fn put_front<L: Lattice>(&self, out: &mut [u8]) -> usize
        requires { 24 ≤ length out.old }
        ensures answer { result ≡ message_length self.now.head.n (length self.now.entries) }
        ensures written { out.new ≡ put_at 0 (spell head_widths (head_numbers L.kind self.now.head (length self.now.entries))) out.old }
    {
        let n = self.head.n;
        let count = self.entries().len();
        let entries_at = FRONT + 4 * n;
        let len = entries_at + count * (20 + 4 * n);
        put(
            out,
            0,
            &[FORM, L::number(), n as u8, self.head.sender as u8],
        );
        put(out, 4, &self.head.group.to_le_bytes());
        put(out, 8, &(count as u16).to_le_bytes());
        put(out, 10, &(FRONT as u16).to_le_bytes());
        put(out, 12, &(entries_at as u16).to_le_bytes());
        put(out, 14, &(len as u16).to_le_bytes());
        put(out, 16, &self.head.clock.to_le_bytes());
        len
    }
}

// Whether the values among the entries are of the lattice's kind.
fn are_of_kind<L: Lattice>(entries: &[Entry]) -> bool
    ensures { result ≡ list_all (λ e. of_kind_state L.kind e.state) entries.now }
{
    entries.iter().all(|entry| is_of_kind::<L>(&entry.state))
}

fn is_of_kind<L: Lattice>(state: &State) -> bool
    ensures { result ≡ of_kind_state L.kind state.now }
{
    match state {
        State::Value(value) => L::is_value(*value),
        State::Tombstone { .. } => true,
    }
}

// Writes an entry of a message of n replicas from a place on.
fn put_entry(out: &mut [u8], at: usize, n: usize, entry: &Entry)
    requires few { n ≤ 7 }
    requires within { at + entry_length n ≤ length out.old }
    ensures written { out.new ≡ put_at at (encode_entry n entry.now) out.old }
    ensures long { length (encode_entry n entry.now) ≡ entry_length n }
{
    put(out, at, &entry.seat.to_le_bytes());
    put(out, at + 8, &entry.state.word().to_le_bytes());
    put(out, at + 16, &entry.state.mark().to_le_bytes());
    put_timestamp(out, at + 20, n, &entry.state);
}

// Writes the timestamp that a message has for a state from a place on: from where it lies, since to copy it first takes longer than to write the entry.
fn put_timestamp(out: &mut [u8], at: usize, n: usize, state: &State)
    requires few { n ≤ 7 }
    requires within { at + 4 * n ≤ length out.old }
    ensures written { out.new ≡ put_at at (encode_timestamp n (timestamp_of state.now)) out.old }
    ensures long { length (encode_timestamp n (timestamp_of state.now)) ≡ 4 * n }
{
    match state {
        State::Value(_) => Timestamp::zero().put_parts(n, out, at),
        State::Tombstone { timestamp, .. } => timestamp.put_parts(n, out, at),
    }
}

// Writes entries of a message of n replicas, one behind another, from a place on.
fn put_entries(out: &mut [u8], at: usize, n: usize, entries: &[Entry])
    requires few { n ≤ 7 }
    requires within { at + length entries.now * entry_length n ≤ length out.old }
    ensures { out.new ≡ put_at at (joined (encode_entry n) entries.now) out.old }
{
    let size = 20 + 4 * n;
    for (i, entry) in entries.iter().enumerate() {
        put_entry(out, at + i * size, n, entry);
    }
}
