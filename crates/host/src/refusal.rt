// What keeps a call from doing anything.
ghost use Rattle.std.specs.Prelude.{◌≡◌};
ghost use Rattle.host.specs.Outcomes.{number};
ghost use Rattle.host.specs.declared.refusal.HostRefusal.TheVariants.{Kind, Refused};

use gossip::{Refusal, UnknownKind};

// A refusal of the calls for a host, each with a number of its own.
#[derive(Clone, Copy, PartialEq, Eq, Debug)]
pub enum HostRefusal {
    // The timestamps or the message are refused: 8, or 20 to 26.
    Refused(Refusal),
    // 60: an area is too small for what it is to hold.
    Area,
    // 61: the message has no entry of this index.
    Index,
    // 62: there is no such kind.
    Kind,
}

impl HostRefusal {
    // The number that the host gets.
    pub fn number(self) -> u8
        ensures answer { result ≡ number self }
    {
        match self {
            HostRefusal::Refused(refusal) => refusal.number(),
            HostRefusal::Area => 60,
            HostRefusal::Index => 61,
            HostRefusal::Kind => 62,
        }
    }
}

impl From<Refusal> for HostRefusal {
    ghost from_gives = { λ refusal given. given ≡ Refused refusal };

    fn from(refusal: Refusal) -> HostRefusal {
        HostRefusal::Refused(refusal)
    }
}

impl From<UnknownKind> for HostRefusal {
    ghost from_gives = { λ _ given. given ≡ Kind };

    fn from(_: UnknownKind) -> HostRefusal {
        HostRefusal::Kind
    }
}
