// What is saved at a time, and how it stands in a log.
ghost use Rattle.std.specs.Prelude.{◌≤◌, length};

use crate::numbers::Number;
use crate::refusals::Refusal;
use crate::store::MAX_BYTES;

// The bytes of a head: the number, a zero, and the length as two bytes, the low one first.
pub const HEAD: usize = 4;

// A number, and bytes that can be saved for it.
#[derive(Clone, Copy)]
pub struct Piece<'a> {
    pub number: Number,
    pub bytes: &'a [u8],
    ghost some: { 1 ≤ length bytes.now },
    ghost fits: { length bytes.now ≤ 3320 },
}

impl<'a> Piece<'a> {
    ghost use Rattle.std.specs.Prelude.{◌≡◌, ◌+◌, ◌++◌, false, IfOk, IfSome, IfNone, MatchResult, length};
    ghost use Rattle.storage.specs.Stores.{save_answer};
    ghost use Rattle.storage.specs.Logs.{head, sound, encode};

    // The piece of these. Refuses a number above 6, then a length outside 1 to 3320.
    pub fn new(number: usize, bytes: &'a [u8]) -> Result<Piece<'a>, Refusal>
        ensures answer { MatchResult result (λ p. save_answer number (length bytes.now) ≡ Ok tt) (λ e. save_answer number (length bytes.now) ≡ Err e) }
        ensures piece { IfOk result (λ p. (p.number.value ≡ number) × (p.bytes.now ≡ bytes.now)) }
    {
        let number = Number::try_from(number)?;
        if bytes.is_empty() || bytes.len() > MAX_BYTES {
            return Err(Refusal::Length);
        }
        Ok(Piece { number, bytes })
    }

    // How many bytes it has in a log.
    pub fn len(&self) -> usize
        ensures answer { result ≡ 4 + length self.now.bytes.now }
    {
        HEAD + self.bytes.len()
    }

    // What stands before its bytes in a log.
    fn head(&self) -> [u8; HEAD]
        ensures answer { result ≡ head self.now.number.value (length self.now.bytes.now) }
    {
        let [low, high] = (self.bytes.len() as u16).to_le_bytes();
        [self.number.value as u8, 0, low, high]
    }

    // Writes it, as it stands in a log, over as many bytes.
    pub(crate) fn write(&self, buffer: &mut [u8])
        requires { length buffer.old ≡ 4 + length self.now.bytes.now }
        ensures after { buffer.new ≡ encode self.now.number.value self.now.bytes.now }
    {
        let (head, body) = buffer.split_at_mut(HEAD);
        head.copy_from_slice(&self.head());
        body.copy_from_slice(self.bytes);
    }

    // The piece at the front of the bytes of a log, and the bytes behind it; none where that is not a whole head with all its bytes.
    pub fn split_first(log: &'a [u8]) -> Option<(Piece<'a>, &'a [u8])>
        ensures piece { IfSome result (λ p. log.now ≡ encode p.0.number.value p.0.bytes.now ++ p.1.now) }
        ensures none { IfNone result (sound log.now ≡ false) }
    {
        let (head, behind) = log.split_first_chunk::<HEAD>()?;
        let [number, zero, low, high] = *head;
        if zero != 0 {
            return None;
        }
        let len = usize::from(u16::from_le_bytes([low, high]));
        let (bytes, rest) = behind.split_at_checked(len)?;
        let piece = Piece::new(usize::from(number), bytes).ok()?;
        Some((piece, rest))
    }
}
