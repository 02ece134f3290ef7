// A store with a place of its own for each number.
ghost use Rattle.std.specs.Prelude.{ℕ, map};
ghost use Rattle.arrayvec.specs.ArrayVec.{ArrayVec as Slot};
ghost use Rattle.storage.specs.Stores.{Places};

use crate::numbers::Number;
use crate::pieces::Piece;
use crate::refusals::Refusal;
use crate::store::{MAX_BYTES, NUMBERS, Store, load_bytes};
use arrayvec::ArrayVec;
use std::alloc::{AllocError, Global};

// Seven places, by number: what a place has is saved there.
#[derive(Drop)]
pub struct SlotStore {
    slots: Vec<ArrayVec<u8, MAX_BYTES>>,
    ghost places: { Places (map (λ (slot : Slot ℕ). slot.items) slots.items) },
}

impl SlotStore {
    ghost use Rattle.std.specs.Prelude.{◌≡◌, [], replicate, IfOk};
    ghost use Rattle.storage.specs.Slotted.{slotted};

    // A store with nothing saved.
    pub fn new(heap: Global) -> Result<SlotStore, AllocError>
        ensures after { IfOk result (λ s. slotted s ≡ replicate 7 []) }
    {
        let slots = vec![in heap; ArrayVec::new(); NUMBERS]?;
        Ok(SlotStore { slots })
    }
}

impl Store for SlotStore {
    ghost use Rattle.storage.specs.Slotted.{slotted};

    ghost saved = { slotted };

    ghost lawful = { λ s. s.places };

    fn save(&mut self, number: usize, bytes: &[u8]) -> Result<(), Refusal> {
        let piece = Piece::new(number, bytes)?;
        let slot = &mut self.slots[piece.number.value];
        slot.clear();
        slot.try_extend_from_slice(piece.bytes).unwrap();
        Ok(())
    }

    fn load(&mut self, number: usize, buffer: &mut [u8]) -> Result<usize, Refusal> {
        let number = Number::try_from(number)?;
        load_bytes(self.slots[number.value].as_slice(), buffer)
    }
}
