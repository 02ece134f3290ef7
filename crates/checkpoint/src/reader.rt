// Reading a checkpoint.
ghost use Rattle.std.specs.Prelude.{◌≡◌, ◌*◌, ◌<◌, ◌≤◌, min, true, length, take, drop, IfOk};
ghost use Rattle.gossip.specs.Format.{timestamp_at};
ghost use Rattle.gossip.specs.Messages.{of_kind};
ghost use Rattle.checkpoint.specs.Format.{decode_saved, encode_saved, with_rows_of, front_length, rows_at, rows_length};

use crate::checkpoint::Checkpoint;
use crate::unreadable::Unreadable;
use gossip::{FRONT, Gossip, Lattice, MOST, Timestamp};
use std::array;

impl Checkpoint {
    // The checkpoint of the lattice's kind that the bytes spell, or why they spell none.
    pub fn read<L: Lattice>(bytes: &[u8]) -> Result<Checkpoint, Unreadable>
        ensures answer { result ≡ decode_saved L.kind bytes.now }
        ensures spelling { IfOk result (λ c. bytes.now ≡ encode_saved L.kind c) }
        ensures kind { IfOk result (λ c. of_kind L.kind c.message ≡ true) }
    {
        let (front, rest) = bytes.split_at(front_len(bytes));
        let message = Gossip::read::<L>(front)?;
        with_rows(message, rest)
    }
}

// How long the head says that the message is, or all bytes where there are fewer.
fn front_len(bytes: &[u8]) -> usize
    ensures { result ≡ min (front_length bytes.now) (length bytes.now) }
{
    if bytes.len() < FRONT {
        return bytes.len();
    }
    let n = usize::from(bytes[2]);
    let count = usize::from(u16::from_le_bytes([bytes[8], bytes[9]]));
    let len = FRONT + 4 * n + count * (20 + 4 * n);
    len.min(bytes.len())
}

// The checkpoint of a message and the rows that the bytes spell. The rows past the n-th are zeros, so it is refused only where the others do not hold.
fn with_rows(message: Gossip, bytes: &[u8]) -> Result<Checkpoint, Unreadable>
    ensures { result ≡ with_rows_of message bytes.now }
{
    let n = message.head().n;
    if bytes.len() != n * (4 * n) {
        return Err(Unreadable::Rows);
    }
    Checkpoint::new(message, read_rows(&message, bytes))
}

// The rows behind a message that bytes spell, and zeros for the replicas that its group has not.
fn read_rows(message: &Gossip, bytes: &[u8]) -> [Timestamp; MOST]
    requires { length bytes.now ≡ rows_length message.now.head.n }
    ensures { result ≡ rows_at message.now.head.n bytes.now }
{
    let n = message.head().n;
    array::from_fn(|i| {
        if i < n {
            row_at(message, i, bytes)
        } else {
            Timestamp::zero()
        }
    })
}

// Row i of those that bytes spell. It is not refused, since its piece has exactly n parts.
fn row_at(message: &Gossip, i: usize, bytes: &[u8]) -> Timestamp
    requires within { i < message.now.head.n }
    requires square { length bytes.now ≡ rows_length message.now.head.n }
    ensures { result ≡ timestamp_at message.now.head.n (take (4 * message.now.head.n) (drop (i * (4 * message.now.head.n)) bytes.now)) }
{
    let n = message.head().n;
    let size = 4 * n;
    let at = i * size;
    Timestamp::read_bytes(n, &bytes[at..at + size]).unwrap()
}
