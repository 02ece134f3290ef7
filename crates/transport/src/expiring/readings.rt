// Putting a reading in front of a message, and taking it off.
ghost use Rattle.std.specs.Prelude.{◌≡◌, ◌+◌, ◌≤◌, [], ◌++◌, length, take, if◌then◌else◌, Ok, Err, OnOk, not, nat_le};
ghost use Rattle.transport.specs.Parcels.{measured, BeginsWith};
ghost use Rattle.transport.specs.Timed.{eight, fresh};

use crate::refusal::Refusal;
use crate::transport::MOST_BYTES;
use arrayvec::ArrayVec;

// The bytes of a reading.
const FRONT: usize = 8;

// Writes a message behind its reading, unless it leaves no room for the reading. The caller has the array, since to return it would copy all of it.
pub(super) fn write_timed(
    reading: u64,
    bytes: &[u8],
    whole: &mut ArrayVec<u8, MOST_BYTES>,
) -> Result<(), Refusal>
    requires empty { whole.old.items ≡ [] }
    ensures answer { result ≡ (if nat_le (length bytes.now) 3192 then Ok tt else Err Refusal.Length) }
    ensures after { OnOk result (whole.new.items ≡ eight reading ++ bytes.now) }
{
    whole.try_extend_from_slice(&reading.to_le_bytes())?;
    whole.try_extend_from_slice(bytes)?;
    Ok(())
}

// Takes the reading off a message of `len` bytes, unless there is nothing behind it or it is out of date.
#[tactic(auto, using(crate::proofs::Takes::moved_to_front))]
pub(super) fn take_off(
    grace: u32,
    reading: u64,
    len: usize,
    place: &mut [u8; MOST_BYTES],
) -> Option<usize>
    requires few { len ≤ 3200 }
    ensures answer { result ≡ measured (fresh grace reading (take len place.old)) }
    ensures place { BeginsWith place.new (fresh grace reading (take len place.old)) }
{
    let (front, message) = place[..len].split_first_chunk()?;
    let posted = u64::from_le_bytes(*front);
    if message.is_empty() || is_late(grace, posted, reading) {
        return None;
    }
    place.copy_within(FRONT..len, 0);
    Some(len - FRONT)
}

// Whether a message posted at one reading is out of date at another. The sum could be too large for a number, so that the difference is compared.
fn is_late(grace: u32, posted: u64, reading: u64) -> bool
    ensures answer { result ≡ not (nat_le reading (posted + grace)) }
{
    reading.saturating_sub(posted) > u64::from(grace)
}
