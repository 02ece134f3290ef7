// Writing a checkpoint.
ghost use Rattle.std.specs.Prelude.{◌≡◌, ◌+◌, ◌*◌, ◌≤◌, true, length, take, Ok};
ghost use Rattle.gossip.specs.Format.{encode_timestamp};
ghost use Rattle.gossip.specs.Messages.{of_kind};
ghost use Rattle.gossip.specs.Numbers.{joined, put_at};
ghost use Rattle.checkpoint.specs.Format.{decode_saved, encode_saved};

use crate::checkpoint::Checkpoint;
use gossip::{Lattice, ROOM, Timestamp};

impl Checkpoint {
    // Writes the checkpoint, as one of the lattice's kind, to the front of the bytes and leaves the rest. The answer is its length.
    // The values of its message are not looked at, so it reads back exactly where they are of the kind: for callers that know that they are.
    pub fn write<L: Lattice>(&self, out: &mut [u8; ROOM]) -> usize
        ensures answer { result ≡ length (encode_saved L.kind self.now) }
        ensures buffer { out.new ≡ put_at 0 (encode_saved L.kind self.now) out.old }
        ensures back { of_kind L.kind self.now.message ≡ true → decode_saved L.kind (take result out.new) ≡ Ok self.now }
    {
        let at = self.message.spell::<L>(out);
        let n = self.message.head().n;
        put_rows(out, at, n, &self.rows[0..n]);
        at + n * (4 * n)
    }
}

// Writes the first n parts of each row, one row after another, from a place on.
fn put_rows(out: &mut [u8], at: usize, n: usize, rows: &[Timestamp])
    requires some { 1 ≤ n }
    requires few { n ≤ 7 }
    requires within { at + length rows.now * (4 * n) ≤ length out.old }
    ensures written { out.new ≡ put_at at (joined (encode_timestamp n) rows.now) out.old }
    ensures long { length (joined (encode_timestamp n) rows.now) ≡ length rows.now * (4 * n) }
{
    let size = 4 * n;
    for (i, row) in rows.iter().enumerate() {
        put_row(out, at + i * size, n, row);
    }
}

// Writes a row's first n parts from a place on. It is not refused, since it is given exactly as many bytes.
fn put_row(out: &mut [u8], at: usize, n: usize, row: &Timestamp)
    requires some { 1 ≤ n }
    requires few { n ≤ 7 }
    requires within { at + 4 * n ≤ length out.old }
    ensures written { out.new ≡ put_at at (encode_timestamp n row.now) out.old }
    ensures long { length (encode_timestamp n row.now) ≡ 4 * n }
{
    row.write_bytes(n, &mut out[at..at + 4 * n]).unwrap();
}
