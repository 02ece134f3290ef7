// Making a mailbox, and what lies in its places.
ghost use Rattle.std.specs.Prelude.{◌≡◌, ◌<◌, ◌≤◌, [], ◌∷◌, ◌++◌, length, IfOk, vec_len, vec_capacity, nat_le, position};
ghost use Rattle.transport.specs.Parcels.{is_for, parcel};
ghost use Rattle.transport.specs.Mailboxes.{parcels};

use super::{Mailbox, PLACES, Parcel};
use arrayvec::ArrayVec;
use std::alloc::{AllocError, Global};
use std::mem;

impl Mailbox {
    // A mailbox that holds nothing, with the memory of all its places.
    pub fn new(heap: Global) -> Result<Mailbox, AllocError>
        ensures answer { IfOk result (λ m. parcels m ≡ []) }
    {
        let places = Vec::with_capacity(heap, PLACES)?;
        Ok(Mailbox { places })
    }

    // Whether no place is free.
    pub(super) fn is_full(&self) -> bool
        ensures answer { result ≡ nat_le 16 (vec_len self.now.places) }
    {
        self.places.len() >= PLACES
    }

    // Where the oldest message for an addressee lies, if there is one.
    pub(super) fn position_of(&self, to: usize) -> Option<usize>
        ensures answer { result ≡ position (is_for to) (parcels self.now) }
    {
        self.places.iter().position(|parcel| parcel.to == to)
    }
}

impl Parcel {
    // Gives a parcel without bytes a message.
    fn fill(&mut self, bytes: &[u8])
        requires empty { self.old.bytes ≡ [] }
        requires few { length bytes.now ≤ 3200 }
        ensures after { self.new ≡ parcel self.old.to bytes.now }
    {
        let _ = self.bytes.try_extend_from_slice(bytes);
    }
}

// Puts a message behind all others, straight into its place: to make the parcel first and to move it there would copy a whole place once more.
// The vector is taken out meanwhile. Behind the reference the compiler would have to allow that clearing the place changes the vector too, and would read back what it just wrote.
#[tactic(auto, using(std::proofs::lemmas::Grind::common_steps, std::proofs::lemmas::List::set_at))]
pub(super) fn push_parcel(places: &mut Vec<Parcel>, to: usize, bytes: &[u8])
    requires free { vec_len places.old < vec_capacity places.old }
    requires few { length bytes.now ≤ 3200 }
    ensures items { places.new.items ≡ places.old.items ++ parcel to bytes.now ∷ [] }
    ensures room { vec_capacity places.new ≡ vec_capacity places.old }
{
    let none = Vec::new(*places.allocator());
    let mut all = mem::replace(places, none);
    let at = all.len();
    all.push_reserved(Parcel {
        to,
        bytes: ArrayVec::new(),
    });
    all[at].fill(bytes);
    *places = all;
}
