// One half of a log: memory of a fixed length, of which the front is in use, and where the last bytes of each number lie.
ghost use Rattle.std.specs.Prelude.{◌≡◌, ◌≤◌, Some, length, take, vec_len};
ghost use Rattle.storage.specs.Logs.{read_log};
ghost use Rattle.storage.specs.Spans.{indexed, Inside};

use super::span::Span;
use crate::pieces::HEAD;
use crate::store::{MAX_BYTES, NUMBERS};

mod reading;
mod replaying;
mod writing;

// The bytes of a half: enough for the longest bytes of all seven numbers and of one more, each behind its head.
pub const CAPACITY: usize = (NUMBERS + 1) * (HEAD + MAX_BYTES);

// The first `used` bytes are in use: they alone count, whatever lies behind them. The index finds in them what a reader of them finds.
#[derive(Drop)]
pub struct Half {
    bytes: Vec<u8>,
    used: usize,
    index: [Option<Span>; NUMBERS],
    ghost whole: { vec_len bytes ≡ 26592 },
    ghost few: { used ≤ 26592 },
    ghost seven: { length index ≡ 7 },
    ghost inside: { Inside used index },
    ghost reads: { read_log (take used bytes.items) ≡ Some (indexed (take used bytes.items) index) },
}
