// A mailbox of 16 places in memory: one message in each, the oldest first.
ghost use Rattle.std.specs.Prelude.{◌≤◌, vec_len, vec_capacity};
ghost use Rattle.transport.specs.Parcels.{Fit};

use crate::transport::MOST_BYTES;
use arrayvec::ArrayVec;
use std::marker::Model;

pub(crate) mod carrying;
mod places;

// How many messages a mailbox holds.
const PLACES: usize = 16;

// A message with the number of its addressee.
#[derive(Drop)]
struct Parcel {
    to: usize,
    bytes: ArrayVec<u8, MOST_BYTES>,
}

// The contracts see the addressee and the bytes.
impl Model for Parcel {
    ghost use Rattle.transport.specs.Parcels.{Parcel as Meaning, parcel};

    ghost Value = { Meaning };

    ghost view = { λ p. parcel p.to p.bytes.items };
}

// The memory of all places is there from the start, so that no post can fail for want of it.
#[derive(Drop)]
pub struct Mailbox {
    places: Vec<Parcel>,
    ghost few: { vec_len places ≤ 16 },
    ghost room: { 16 ≤ vec_capacity places },
    ghost fit: { Fit 3200 places.items },
}
