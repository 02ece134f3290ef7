// Reading a gossip message.
ghost use Rattle.std.specs.Prelude.{◌≡◌, ◌*◌, ◌%◌, ◌≤◌, true, map, length, IfOk, OnOk};
ghost use Rattle.gossip.specs.Format.{decode, decode_head, decode_entries, encode, entry_length, message_length, layout, state_at, seat_at, value_at, tombstone_at};
ghost use Rattle.gossip.specs.Messages.{sound, sound_head, of_kind, rises};
ghost use Rattle.gossip.specs.Numbers.{field, whole_pieces};

use crate::entries::{ENTRIES, Entries};
use crate::entry::{Entry, State, TOMBSTONE, VALUE};
use crate::head::{Head, LATEST};
use crate::lattice::Lattice;
use crate::message::{Gossip, is_origin};
use crate::numbers::{read_le, u32_at};
use crate::refusal::Refusal;
use crate::timestamp::Timestamp;

// The form of every gossip message.
pub(crate) const FORM: u8 = 1;

// The length of its fixed front, in which its head says how long it is.
pub const FRONT: usize = 24;

// The fields behind the four head bytes and before the timestamp.
#[derive(Clone, Copy)]
struct Fields {
    group: u32,
    count: usize,
    timestamp_at: usize,
    entries_at: usize,
    len: usize,
    clock: u64,
}

impl Gossip {
    // The message of the lattice's kind that the bytes spell, or the first rule that they break.
    pub fn read<L: Lattice>(bytes: &[u8]) -> Result<Gossip, Refusal>
        ensures answer { result ≡ decode L.kind bytes.now }
        ensures spelling { IfOk result (λ m. bytes.now ≡ encode L.kind m) }
        ensures kind { IfOk result (λ m. of_kind L.kind m ≡ true) }
    {
        let head = read_head::<L>(bytes)?;
        read_entries::<L>(head, &bytes[FRONT + 4 * head.n..])
    }
}

// The head, where the entries behind it are of its layout.
fn read_head<L: Lattice>(bytes: &[u8]) -> Result<Head, Refusal>
    ensures answer { result ≡ decode_head L.kind bytes.now }
    ensures few { OnOk result (field 8 2 bytes.now ≤ 64) }
    ensures long { IfOk result (λ h. length bytes.now ≡ message_length h.n (field 8 2 bytes.now)) }
    ensures sound { IfOk result (λ h. sound_head h ≡ true) }
{
    if bytes.len() < FRONT {
        return Err(Refusal::Short);
    }
    let [form, kind, n, sender, rest @ ..] = bytes else {
        return Err(Refusal::Short);
    };
    if *form != FORM {
        return Err(Refusal::Form);
    }
    if *kind != L::number() {
        return Err(Refusal::Origin);
    }
    let n = usize::from(*n);
    let sender = usize::from(*sender);
    if !is_origin(n, sender) {
        return Err(Refusal::Origin);
    }
    let fields = read_fields(rest);
    if !is_laid_out(n, &fields, bytes.len()) {
        return Err(Refusal::Layout);
    }
    if fields.clock > LATEST {
        return Err(Refusal::Clock);
    }
    Ok(Head {
        n,
        sender,
        group: fields.group,
        clock: fields.clock,
        timestamp: Timestamp::from_bytes(&bytes[FRONT..], n),
    })
}

fn read_fields(rest: &[u8]) -> Fields
    requires { 20 ≤ length rest.now }
    ensures group { result.group ≡ field 0 4 rest.now }
    ensures count { result.count ≡ field 4 2 rest.now }
    ensures timestamp_at { result.timestamp_at ≡ field 6 2 rest.now }
    ensures entries_at { result.entries_at ≡ field 8 2 rest.now }
    ensures len { result.len ≡ field 10 2 rest.now }
    ensures clock { result.clock ≡ field 12 8 rest.now }
{
    Fields {
        group: u32_at(rest, 0),
        count: read_le(&rest[4..6]) as usize,
        timestamp_at: read_le(&rest[6..8]) as usize,
        entries_at: read_le(&rest[8..10]) as usize,
        len: read_le(&rest[10..12]) as usize,
        clock: read_le(&rest[12..20]),
    }
}

// Whether count, offsets and lengths are those of a message of n replicas.
fn is_laid_out(n: usize, fields: &Fields, len: usize) -> bool
    requires { n ≤ 7 }
    ensures { result ≡ layout n fields.now.count fields.now.timestamp_at fields.now.entries_at fields.now.len len }
{
    if fields.count > ENTRIES {
        return false;
    }
    let entries_at = FRONT + 4 * n;
    let whole = entries_at + fields.count * (20 + 4 * n);
    fields.timestamp_at == FRONT
        && fields.entries_at == entries_at
        && fields.len == whole
        && len == whole
}

// The message with this head whose entries the bytes spell.
fn read_entries<L: Lattice>(head: Head, bytes: &[u8]) -> Result<Gossip, Refusal>
    requires sound { sound_head head ≡ true }
    requires few { length bytes.now ≤ 64 * entry_length head.n }
    requires whole { length bytes.now % entry_length head.n ≡ 0 }
    ensures { result ≡ decode_entries L.kind head (whole_pieces (entry_length head.n) bytes.now) }
{
    let size = 20 + 4 * head.n;
    if !seats_rise(bytes, size) {
        return Err(Refusal::Order);
    }
    let mut entries = Entries::new();
    for piece in bytes.chunks_exact(size) {
        let Some(state) = read_state::<L>(piece, head.n, &head.timestamp) else {
            return Err(Refusal::Mark);
        };
        let seat = read_le(&piece[0..8]);
        entries.push(Entry { seat, state });
    }
    Ok(Gossip { head, entries })
}

// Whether the seats of entries of one size rise.
fn seats_rise(bytes: &[u8], size: usize) -> bool
    requires { 8 ≤ size }
    ensures { result ≡ rises (map seat_at (whole_pieces size bytes.now)) }
{
    let mut before = None;
    for piece in bytes.chunks_exact(size) {
        let seat = read_le(&piece[0..8]);
        match before {
            Some(last) if last >= seat => return false,
            _ => before = Some(seat),
        }
    }
    true
}

// The state in the bytes of an entry, unless it has another mark or breaks its mark's rule.
fn read_state<L: Lattice>(entry: &[u8], n: usize, top: &Timestamp) -> Option<State>
    requires few { n ≤ 7 }
    requires whole { length entry.now ≡ entry_length n }
    ensures { result ≡ state_at L.kind n top.now entry.now }
{
    let timestamp = Timestamp::from_bytes(&entry[20..], n);
    let word = read_le(&entry[8..16]);
    match u32_at(entry, 16) {
        VALUE => read_value::<L>(word, &timestamp),
        TOMBSTONE => read_tombstone(word, timestamp, top),
        _ => None,
    }
}

fn read_value<L: Lattice>(word: u64, timestamp: &Timestamp) -> Option<State>
    ensures { result ≡ value_at L.kind word timestamp.now }
{
    if L::is_value(word) && timestamp.is_of(0) {
        Some(State::Value(word))
    } else {
        None
    }
}

fn read_tombstone(word: u64, timestamp: Timestamp, top: &Timestamp) -> Option<State>
    ensures { result ≡ tombstone_at top.now word timestamp }
{
    if word <= LATEST && timestamp.is_under(top) {
        Some(State::Tombstone {
            time: word,
            timestamp,
        })
    } else {
        None
    }
}
