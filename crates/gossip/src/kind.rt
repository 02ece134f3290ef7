// The kinds of values that are shipped.
ghost use Rattle.std.specs.Prelude.{◌≡◌};
ghost use Rattle.gossip.specs.Format.{decode};
ghost use Rattle.gossip.specs.Kinds.{lattice_of, Named};

use crate::lattice::{COUNTS, Counts, Lattice, PORTS, Ports};
use crate::message::Gossip;
use crate::refusal::Refusal;

// A kind that is shipped, by the number that it has in messages: for programs that learn only from a number which kind it is.
#[derive(Clone, Copy, PartialEq, Eq, Debug)]
pub enum Kind {
    Counts,
    Ports,
}

// No kind that is shipped has the number.
#[derive(Clone, Copy, PartialEq, Eq, Debug)]
pub struct UnknownKind;

impl Kind {
    // The kind's number in messages.
    pub fn number(self) -> u8
        ensures answer { result ≡ (lattice_of self).number }
    {
        match self {
            Kind::Counts => Counts::number(),
            Kind::Ports => Ports::number(),
        }
    }

    // The message of this kind that the bytes spell, or the first rule that they break.
    pub fn read(self, bytes: &[u8]) -> Result<Gossip, Refusal>
        ensures answer { result ≡ decode (lattice_of self) bytes.now }
    {
        match self {
            Kind::Counts => Gossip::read::<Counts>(bytes),
            Kind::Ports => Gossip::read::<Ports>(bytes),
        }
    }
}

impl TryFrom<u8> for Kind {
    type Error = UnknownKind;

    ghost try_from_gives = { Named };

    fn try_from(number: u8) -> Result<Kind, UnknownKind> {
        match number {
            COUNTS => Ok(Kind::Counts),
            PORTS => Ok(Kind::Ports),
            _ => Err(UnknownKind),
        }
    }
}
