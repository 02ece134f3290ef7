// A store that appends what is saved to a log of two halves.
//
// A call to `save` first writes where nothing is in use, and then commits by one step: it moves the end of what is in use over the new bytes, or it swaps the halves. The bytes in use alone say what is saved (`bytes`), and each step before the one that commits leaves them as they were (the clauses `kept`). So a stop between any two steps counts as a stop before the call, or, behind the one that commits, as a stop after it.
ghost use Rattle.std.specs.Prelude.{◌≡◌, ◌≤◌, [], replicate, is_some, is_ok, IfOk, Some, slice_set, unwrap_or};
ghost use Rattle.storage.specs.Halves.{contents};
ghost use Rattle.storage.specs.Logged.{logged};
ghost use Rattle.storage.specs.Logs.{read_log};
ghost use Rattle.storage.specs.Indexes.{contents_lawful};

use crate::numbers::Number;
use crate::pieces::Piece;
use crate::refusals::{NotALog, Refusal};
use crate::store::{LAST_NUMBER, Store, load_bytes};
use half::Half;
use std::alloc::{AllocError, Global};
use std::mem;

mod half;
mod span;

// The half in use, to which is appended, and the other, to which the last bytes of each number move when the first is full.
#[derive(Drop)]
pub struct LogStore {
    active: Half,
    spare: Half,
}

impl LogStore {
    // A store with nothing saved.
    pub fn new(heap: Global) -> Result<LogStore, AllocError>
        ensures after { IfOk result (λ s. logged s ≡ replicate 7 []) }
    {
        let active = Half::new(heap)?;
        let spare = Half::new(heap)?;
        Ok(LogStore { active, spare })
    }

    // The bytes of the half in use, which alone determine everything saved.
    pub fn bytes(&self) -> &[u8]
        ensures answer { read_log result.now ≡ Some (logged self.now) }
    {
        self.active.in_use()
    }

    // A restart of the machine: from here on what these bytes say is saved. Refuses bytes that are not those of a log, and changes nothing saved then.
    pub fn reopen(&mut self, bytes: &[u8]) -> Result<(), NotALog>
        ensures answer { is_ok result ≡ is_some (read_log bytes.now) }
        ensures after { logged self.new ≡ unwrap_or (read_log bytes.now) (logged self.old) }
    {
        self.spare.replay(bytes)?;
        mem::swap(&mut self.active, &mut self.spare);
        Ok(())
    }

    // Writes what is to be saved, and before it the last bytes of each other number, to the other half.
    fn rewrite(&mut self, piece: Piece<'_>)
        ensures kept { self.new.active ≡ self.old.active }
        ensures after { contents self.new.spare ≡ slice_set (contents self.old.active) piece.entry.number.value piece.entry.bytes.now }
    {
        self.move_others(piece.number);
        self.spare.append(piece);
    }

    // Moves the last bytes of each other number to the other half.
    fn move_others(&mut self, number: Number)
        ensures kept { self.new.active ≡ self.old.active }
        ensures after { contents self.new.spare ≡ slice_set (contents self.old.active) number.value [] }
        ensures used { self.new.spare.used ≤ 23268 }
    {
        self.spare.clear();
        for other in 0..=LAST_NUMBER {
            if other != number.value {
                if let Some(piece) = self.active.last(Number { value: other }) {
                    self.spare.append(piece);
                }
            }
        }
    }
}

impl Store for LogStore {
    ghost saved = { logged };

    ghost lawful = { λ s. contents_lawful s.active };

    fn save(&mut self, number: usize, bytes: &[u8]) -> Result<(), Refusal> {
        let piece = Piece::new(number, bytes)?;
        if self.active.has_room(piece) {
            self.active.stage(piece);
            self.active.commit(piece);
        } else {
            self.rewrite(piece);
            mem::swap(&mut self.active, &mut self.spare);
        }
        Ok(())
    }

    fn load(&mut self, number: usize, buffer: &mut [u8]) -> Result<usize, Refusal> {
        let number = Number::try_from(number)?;
        load_bytes(self.active.get(number), buffer)
    }
}
