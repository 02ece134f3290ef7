// Reading a half.
ghost use Rattle.std.specs.Prelude.{◌≡◌, ◌+◌, ◌≤◌, [], IfSome, MatchOption, length, nat_le, slice_index_or};
ghost use Rattle.storage.specs.Halves.{in_use, contents};

use super::{CAPACITY, Half};
use crate::numbers::Number;
use crate::pieces::Piece;

impl Half {
    // The bytes in use.
    pub fn in_use(&self) -> &[u8]
        ensures answer { result.now ≡ in_use self.now }
    {
        &self.bytes[..self.used]
    }

    // The last bytes of a number, with it; none where nothing is saved for it.
    pub fn last(&self, number: Number) -> Option<Piece<'_>>
        ensures number { IfSome result (λ p. p.number.value ≡ number.value) }
        ensures bytes { MatchOption result (slice_index_or (contents self.now) number.value [] ≡ []) (λ p. p.bytes.now ≡ slice_index_or (contents self.now) number.value []) }
    {
        let span = self.index[number.value]?;
        let bytes = &self.in_use()[span.at..span.at + span.len];
        Some(Piece { number, bytes })
    }

    // The last bytes of a number, as many as can be saved at most.
    pub fn get(&self, number: Number) -> &[u8]
        ensures answer { result.now ≡ slice_index_or (contents self.now) number.value [] }
        ensures fits { length result.now ≤ 3320 }
    {
        self.last(number).map_or(&[], |piece| piece.bytes)
    }

    // Whether a piece fits behind those in use.
    pub fn has_room(&self, piece: Piece<'_>) -> bool
        ensures answer { result ≡ nat_le (self.now.used + 4 + length piece.entry.bytes.now) 26592 }
    {
        self.used + piece.len() <= CAPACITY
    }
}
