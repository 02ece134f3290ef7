// What every store does.
ghost use Rattle.std.specs.Prelude.{◌≡◌, ◌≤◌, ℕ, List, [], Ok, Err, nat_le, length, is_ok, if◌then◌else◌, slice_index_or, slice_set};
ghost use Rattle.storage.specs.Stores.{Places, save_answer, load_answer, fronted};
ghost use Rattle.storage.specs.declared.refusals.Refusal.TheVariants.{Room};

use crate::refusals::Refusal;

// The last of the numbers, which begin at 0.
pub const LAST_NUMBER: usize = 6;

// How many numbers there are.
pub const NUMBERS: usize = LAST_NUMBER + 1;

// The most bytes that can be saved for a number.
pub const MAX_BYTES: usize = 3320;

// A store means the bytes saved for each number 0 to 6, none where nothing is saved.
pub trait Store {
    ghost saved: { Self → List (List ℕ) };

    // Replaces the bytes saved for a number, and no other's. Refuses a number above 6, then a length outside 1 to 3320, and changes nothing then.
    fn save(&mut self, number: usize, bytes: &[u8]) -> Result<(), Refusal>
        ensures answer { result ≡ save_answer number (length bytes.now) }
        ensures after { saved self.new ≡ (if is_ok result then slice_set (saved self.old) number bytes.now else saved self.old) };

    // Copies the bytes saved for a number to the front of a buffer of 3320 bytes or more, leaves the rest of it, and answers how many they are, 0 where nothing is saved. Refuses a number above 6, then a smaller buffer, and leaves the buffer then.
    fn load(&mut self, number: usize, buffer: &mut [u8]) -> Result<usize, Refusal>
        ensures answer { result ≡ load_answer number (length buffer.old) (slice_index_or (saved self.old) number []) }
        ensures buffer { buffer.new ≡ (if is_ok result then fronted (slice_index_or (saved self.old) number []) buffer.old else buffer.old) }
        ensures kept { saved self.new ≡ saved self.old };

    ghost lawful: { (s : Self) → Places (saved s) };
}

// Copies bytes that are saved to the front of a buffer, leaves the rest of it, and answers how many they are. Refuses a buffer of less than 3320 bytes, and leaves it then.
pub(crate) fn load_bytes(saved: &[u8], buffer: &mut [u8]) -> Result<usize, Refusal>
    requires { length saved.now ≤ 3320 }
    ensures answer { result ≡ (if nat_le 3320 (length buffer.old) then Ok (length saved.now) else Err Room) }
    ensures buffer { buffer.new ≡ (if is_ok result then fronted saved.now buffer.old else buffer.old) }
{
    if buffer.len() < MAX_BYTES {
        return Err(Refusal::Room);
    }
    let len = saved.len();
    buffer[..len].copy_from_slice(saved);
    Ok(len)
}
