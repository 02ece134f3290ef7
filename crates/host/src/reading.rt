// The calls, and what they do.
ghost use Rattle.std.specs.Prelude.{◌≡◌, ◌≤◌, length};
ghost use Rattle.gossip.specs.Refusals.{outcome};
ghost use Rattle.host.specs.Areas.{after, front, head_fields, head_parts, entry_fields, entry_parts};
ghost use Rattle.host.specs.Outcomes.{comparison, message_of, head_outcome, entry_outcome, entry_room, room_for};

use crate::refusal::HostRefusal;
use gossip::{Gossip, Kind, Timestamp};
use std::cmp::Ordering;

// How many fields a head has, and an entry.
const HEAD: usize = 5;

const ENTRY: usize = 3;

// The order of two timestamps, none where neither is at or under the other.
// Refused where the lengths differ or lie outside 1 to 7.
pub fn compare(first: &[u32], second: &[u32]) -> Result<Option<Ordering>, HostRefusal>
    ensures answer { result ≡ comparison first.now second.now }
{
    let n = first.len();
    let first = Timestamp::read(n, first)?;
    let second = Timestamp::read(n, second)?;
    Ok(first.partial_cmp(&second))
}

// Reads a message of the kind with this number, and writes its head: five fields and n parts.
pub fn read_head(
    kind: u8,
    bytes: &[u8],
    fields: &mut [u64],
    timestamp: &mut [u32],
) -> Result<(), HostRefusal>
    ensures answer { result ≡ outcome (λ _. tt) (head_outcome kind bytes.now (length fields.old) (length timestamp.old)) }
    ensures fields { fields.new ≡ after head_fields (head_outcome kind bytes.now (length fields.old) (length timestamp.old)) fields.old }
    ensures timestamp { timestamp.new ≡ after head_parts (head_outcome kind bytes.now (length fields.old) (length timestamp.old)) timestamp.old }
{
    let message = read(kind, bytes)?;
    write_head(&message, fields, timestamp)
}

// Reads a message of the kind with this number, and writes the entry of an index: three fields and n parts.
pub fn read_entry(
    kind: u8,
    bytes: &[u8],
    index: usize,
    fields: &mut [u64],
    timestamp: &mut [u32],
) -> Result<(), HostRefusal>
    ensures answer { result ≡ outcome (λ _. tt) (entry_outcome kind bytes.now index (length fields.old) (length timestamp.old)) }
    ensures fields { fields.new ≡ after (entry_fields index) (entry_outcome kind bytes.now index (length fields.old) (length timestamp.old)) fields.old }
    ensures timestamp { timestamp.new ≡ after (entry_parts index) (entry_outcome kind bytes.now index (length fields.old) (length timestamp.old)) timestamp.old }
{
    let message = read(kind, bytes)?;
    write_entry(&message, index, fields, timestamp)
}

// The message of the kind with this number that the bytes spell.
fn read(kind: u8, bytes: &[u8]) -> Result<Gossip, HostRefusal>
    ensures { result ≡ message_of kind bytes.now }
{
    let message = Kind::try_from(kind)?.read(bytes)?;
    Ok(message)
}

// Writes what a message says besides its entries, if the areas have room for it.
fn write_head(
    message: &Gossip,
    fields: &mut [u64],
    timestamp: &mut [u32],
) -> Result<(), HostRefusal>
    ensures answer { result ≡ outcome (λ _. tt) (room_for 5 (length fields.old) (length timestamp.old) message.now) }
    ensures fields { fields.new ≡ after head_fields (room_for 5 (length fields.old) (length timestamp.old) message.now) fields.old }
    ensures timestamp { timestamp.new ≡ after head_parts (room_for 5 (length fields.old) (length timestamp.old) message.now) timestamp.old }
{
    let head = message.head();
    let count = message.entries().len();
    if fields.len() < HEAD || timestamp.len() < head.n {
        return Err(HostRefusal::Area);
    }
    put_front(
        fields,
        &[
            head.n as u64,
            head.sender as u64,
            u64::from(head.group),
            head.clock,
            count as u64,
        ],
    );
    put_front(timestamp, head.timestamp.prefix(head.n));
    Ok(())
}

// Writes the entry of an index, if there is one and the areas have room for it.
fn write_entry(
    message: &Gossip,
    index: usize,
    fields: &mut [u64],
    timestamp: &mut [u32],
) -> Result<(), HostRefusal>
    ensures answer { result ≡ outcome (λ _. tt) (entry_room index (length fields.old) (length timestamp.old) message.now) }
    ensures fields { fields.new ≡ after (entry_fields index) (entry_room index (length fields.old) (length timestamp.old) message.now) fields.old }
    ensures timestamp { timestamp.new ≡ after (entry_parts index) (entry_room index (length fields.old) (length timestamp.old) message.now) timestamp.old }
{
    let n = message.head().n;
    let entries = message.entries();
    if index >= entries.len() {
        return Err(HostRefusal::Index);
    }
    if fields.len() < ENTRY || timestamp.len() < n {
        return Err(HostRefusal::Area);
    }
    let entry = entries[index];
    let mark = u64::from(entry.state.mark());
    put_front(fields, &[entry.seat, mark, entry.state.word()]);
    put_front(timestamp, entry.state.timestamp().prefix(n));
    Ok(())
}

// Writes values over the front of an area.
fn put_front<T: Copy>(area: &mut [T], values: &[T])
    requires { length values.now ≤ length area.old }
    ensures { area.new ≡ front values.now area.old }
{
    let len = values.len();
    area[0..len].copy_from_slice(values);
}
