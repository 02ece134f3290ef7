// Writing a half: what is written counts only once it is committed.
ghost use Rattle.std.specs.Prelude.{◌≡◌, ◌+◌, [], length, replicate, IfOk, slice_set};
ghost use Rattle.storage.specs.Halves.{in_use, contents, staged, HasRoom};
ghost use Rattle.storage.specs.Logs.{encode};

use super::{CAPACITY, HEAD, Half};
use crate::log::span::Span;
use crate::pieces::Piece;
use crate::store::NUMBERS;
use std::alloc::{AllocError, Global};

impl Half {
    // A half with nothing in use, and all its memory.
    pub fn new(heap: Global) -> Result<Half, AllocError>
        ensures after { IfOk result (λ h. contents h ≡ replicate 7 []) }
    {
        let bytes = vec![in heap; 0u8; CAPACITY]?;
        Ok(Half {
            bytes,
            used: 0,
            index: [None; NUMBERS],
        })
    }

    // Nothing in use.
    pub fn clear(&mut self)
        ensures after { contents self.new ≡ replicate 7 [] }
        ensures used { self.new.used ≡ 0 }
    {
        self.used = 0;
        self.index = [None; NUMBERS];
    }

    // Writes a piece behind the bytes in use, which stay as they are: a stop in here, or behind it, loses nothing and adds nothing.
    pub fn stage(&mut self, piece: Piece<'_>)
        requires room { HasRoom self.old piece.bytes.now }
        ensures kept { (in_use self.new ≡ in_use self.old) × (contents self.new ≡ contents self.old) × (self.new.used ≡ self.old.used) }
        ensures after { staged self.new piece.entry.bytes.now ≡ encode piece.entry.number.value piece.entry.bytes.now }
    {
        let end = self.used + piece.len();
        piece.write(&mut self.bytes[self.used..end]);
    }

    // Takes the piece that is staged into use: the one step that changes what is saved. Only `used` counts in it; the index is made anew from the bytes after a stop.
    pub fn commit(&mut self, piece: Piece<'_>)
        requires room { HasRoom self.old piece.bytes.now }
        requires staged { staged self.old piece.bytes.now ≡ encode piece.number.value piece.bytes.now }
        ensures after { contents self.new ≡ slice_set (contents self.old) piece.entry.number.value piece.entry.bytes.now }
        ensures used { self.new.used ≡ self.old.used + 4 + length piece.entry.bytes.now }
    {
        self.index[piece.number.value] = Some(Span {
            at: self.used + HEAD,
            len: piece.bytes.len(),
        });
        self.used += piece.len();
    }

    // Both, for a half that is not in use.
    pub fn append(&mut self, piece: Piece<'_>)
        requires room { HasRoom self.old piece.bytes.now }
        ensures after { contents self.new ≡ slice_set (contents self.old) piece.entry.number.value piece.entry.bytes.now }
        ensures used { self.new.used ≡ self.old.used + 4 + length piece.entry.bytes.now }
    {
        self.stage(piece);
        self.commit(piece);
    }
}
