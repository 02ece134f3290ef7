// A mailbox as a transport: open while a place is free, and each addressee gets his oldest message.
ghost use Rattle.std.specs.Prelude.{◌≡◌, ◌++◌, length};
ghost use Rattle.transport.specs.Parcels.{parcel, Kept, Posted, measured, BeginsWith, oldest, without};
ghost use Rattle.transport.specs.Refusals.{post_answer, taken};
ghost use Rattle.transport.specs.Mailboxes.{parcels, most, free};
ghost use Rattle.transport.specs.Boxes.{mailbox_lawful};

use super::Mailbox;
use super::places::push_parcel;
use crate::refusal::Refusal;
use crate::transport::{MOST_BYTES, Transport};

impl Transport for Mailbox {
    ghost held = { parcels };

    ghost longest = { most };

    ghost is_open = { λ m _ _. free m };

    ghost next = { λ m to _. oldest to (parcels m) };

    ghost lawful = { λ m. mailbox_lawful m };

    // Loses no message.
    #[tactic(auto, using(crate::proofs::Posts::posted_all, crate::proofs::Posts::posted_none))]
    fn post(&mut self, to: usize, _reading: u64, bytes: &[u8]) -> Result<(), Refusal>
        ensures answer { result ≡ post_answer (free self.old) (most self.old) (length bytes.now) }
        ensures lost { Posted (parcels self.old) (taken result (parcel to bytes.now)) (parcels self.new) }
        ensures exact { parcels self.new ≡ parcels self.old ++ taken result (parcel to bytes.now) }
    {
        if bytes.is_empty() || bytes.len() > MOST_BYTES {
            return Err(Refusal::Length);
        }
        if self.is_full() {
            return Err(Refusal::Closed);
        }
        push_parcel(&mut self.places, to, bytes);
        Ok(())
    }

    // Frees the place of the message that it gives, and loses no other.
    #[tactic(auto, using(crate::proofs::Takes::oldest_leaves))]
    fn take(&mut self, to: usize, _reading: u64, place: &mut [u8; MOST_BYTES]) -> Option<usize>
        ensures answer { result ≡ measured (oldest to (parcels self.old)) }
        ensures place { BeginsWith place.new (oldest to (parcels self.old)) }
        ensures lost { Kept (parcels self.old) (parcels self.new) }
        ensures exact { parcels self.new ≡ without to (parcels self.old) }
    {
        let at = self.position_of(to)?;
        let bytes = &self.places.get(at)?.bytes;
        let len = bytes.len();
        place[..len].copy_from_slice(bytes);
        self.places.remove(at);
        Some(len)
    }

    fn empty(&mut self) {
        self.places.clear();
    }
}
