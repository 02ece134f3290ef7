// The calls of the crate `host` under their names in C and with their answers as numbers, as a static library: host/seats.h declares them.
#![tactic(auto)]

ghost use Rattle.std.specs.Prelude.{◌≡◌, length, Result};
ghost use Rattle.gossip.specs.Refusals.{outcome};
ghost use Rattle.gossip.specs.Messages.{Message};
ghost use Rattle.host.specs.Areas.{after, head_fields, head_parts, entry_fields, entry_parts};
ghost use Rattle.host.specs.Outcomes.{comparison, compared, head_outcome, entry_outcome, code};
ghost use Rattle.host.specs.declared.refusal.HostRefusal.{HostRefusal as AnyRefusal};

use host::HostRefusal;
use std::cmp::Ordering;

// What a call answers that did what it was asked.
const DONE: u8 = 0;

// Whether the first timestamp is at or under the second (1), and the second at or under the first (2), added up.
// 8 where the lengths differ or lie outside 1 to 7.
#[unsafe(no_mangle)]
pub extern "C" fn seats_compare(first: &[u32], second: &[u32]) -> u8
    ensures answer { result ≡ compared (comparison first.now second.now) }
{
    match host::compare(first, second) {
        Ok(Some(Ordering::Less)) => 1,
        Ok(Some(Ordering::Greater)) => 2,
        Ok(Some(Ordering::Equal)) => 3,
        Ok(None) => 0,
        Err(refusal) => refusal.number(),
    }
}

// Reads a message of the kind with this number, and writes its head: five fields and n parts.
#[unsafe(no_mangle)]
pub extern "C" fn seats_read_head(
    kind: u8,
    bytes: &[u8],
    fields: &mut [u64],
    timestamp: &mut [u32],
) -> u8
    ensures answer { result ≡ code (head_outcome kind bytes.now (length fields.old) (length timestamp.old)) }
    ensures fields { fields.new ≡ after head_fields (head_outcome kind bytes.now (length fields.old) (length timestamp.old)) fields.old }
    ensures timestamp { timestamp.new ≡ after head_parts (head_outcome kind bytes.now (length fields.old) (length timestamp.old)) timestamp.old }
{
    number(host::read_head(kind, bytes, fields, timestamp))
}

// Reads a message of the kind with this number, and writes the entry of an index: three fields and n parts.
#[unsafe(no_mangle)]
pub extern "C" fn seats_read_entry(
    kind: u8,
    bytes: &[u8],
    index: usize,
    fields: &mut [u64],
    timestamp: &mut [u32],
) -> u8
    ensures answer { result ≡ code (entry_outcome kind bytes.now index (length fields.old) (length timestamp.old)) }
    ensures fields { fields.new ≡ after (entry_fields index) (entry_outcome kind bytes.now index (length fields.old) (length timestamp.old)) fields.old }
    ensures timestamp { timestamp.new ≡ after (entry_parts index) (entry_outcome kind bytes.now index (length fields.old) (length timestamp.old)) timestamp.old }
{
    number(host::read_entry(kind, bytes, index, fields, timestamp))
}

// The answer of a call that reads, as a number.
fn number(answer: Result<(), HostRefusal>) -> u8
    ensures { (r : Result Message AnyRefusal) → answer ≡ outcome (λ _. tt) r → result ≡ code r }
{
    match answer {
        Ok(()) => DONE,
        Err(refusal) => refusal.number(),
    }
}
