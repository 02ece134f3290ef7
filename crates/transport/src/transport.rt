// What every transport promises.
ghost use Rattle.std.specs.Prelude.{◌≡◌, ℕ, Bool, List, [], length};
ghost use Rattle.transport.specs.Parcels.{Parcel, parcel, Kept, Posted, Lawful, measured, BeginsWith};
ghost use Rattle.transport.specs.Refusals.{post_answer, taken};

use crate::refusal::Refusal;

// The most bytes of a message of any transport, and the bytes of the place that one is taken to.
pub const MOST_BYTES: usize = 3_200;

// A transport means the messages that it holds with their addressees, the oldest first; the length of the longest that it takes; and, for an addressee and a clock reading, whether it is open and which message is next (no bytes for none).
pub trait Transport {
    ghost held: { Self → List Parcel };

    ghost longest: { Self → ℕ };

    ghost is_open: { Self → ℕ → ℕ → Bool };

    ghost next: { Self → ℕ → ℕ → List ℕ };

    // Takes a message in behind all others. It is refused exactly where its length is 0 or above the longest, and else where the transport is not open.
    fn post(&mut self, to: usize, reading: u64, bytes: &[u8]) -> Result<(), Refusal>
        ensures answer { result ≡ post_answer (is_open self.old to reading) (longest self.old) (length bytes.now) }
        ensures lost { Posted (held self.old) (taken result (parcel to bytes.now)) (held self.new) }
        ensures kept { longest self.new ≡ longest self.old };

    // Puts the message that is next for an addressee at the front of the place and answers its length, or none. The rest of the place is free.
    fn take(&mut self, to: usize, reading: u64, place: &mut [u8; MOST_BYTES]) -> Option<usize>
        ensures answer { result ≡ measured (next self.old to reading) }
        ensures place { BeginsWith place.new (next self.old to reading) }
        ensures lost { Kept (held self.old) (held self.new) }
        ensures kept { longest self.new ≡ longest self.old };

    // Lets every message go.
    fn empty(&mut self)
        ensures after { held self.new ≡ [] }
        ensures kept { longest self.new ≡ longest self.old };

    ghost lawful: { (t : Self) → Lawful (held t) (longest t) (next t) };
}
