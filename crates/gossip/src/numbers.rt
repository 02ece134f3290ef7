// Little-endian numbers in bytes, and bytes at a place among others.
ghost use Rattle.std.specs.Prelude.{◌≡◌, ◌+◌, ◌≤◌, length};
ghost use Rattle.gossip.specs.Numbers.{number, field, put_at};

// The number that at most eight bytes write, the lowest byte first.
pub(crate) fn read_le(src: &[u8]) -> u64
    requires { length src.now ≤ 8 }
    ensures { result ≡ number src.now }
{
    let mut word = [0; 8];
    word[0..src.len()].copy_from_slice(src);
    u64::from_le_bytes(word)
}

// The number of four bytes at a place.
pub(crate) fn u32_at(src: &[u8], at: usize) -> u32
    requires { at + 4 ≤ length src.now }
    ensures { result ≡ field at 4 src.now }
{
    read_le(&src[at..at + 4]) as u32
}

// Writes bytes over those from a place on.
pub(crate) fn put(out: &mut [u8], at: usize, bytes: &[u8])
    requires { at + length bytes.now ≤ length out.old }
    ensures { out.new ≡ put_at at bytes.now out.old }
{
    out[at..at + bytes.len()].copy_from_slice(bytes);
}
