// The gossip message as a value of its own.
use crate::entries::Entries;
use crate::head::Head;
use std::marker::Model;

mod building;

pub(crate) use building::is_origin;

// A message that can be written, seen as what it says: its fields keep every rule of the format, but that its values are of a kind, which only a reader or a writer knows.
#[derive(Clone, Copy)]
pub struct Gossip {
    pub(crate) head: Head,
    pub(crate) entries: Entries,
}

impl Model for Gossip {
    ghost use Rattle.std.specs.Prelude.{◌≡◌, true};
    ghost use Rattle.gossip.specs.Messages.{Message, sound};

    ghost Value = { Message };

    ghost view = { λ g. record { head = g.head; entries = g.entries } };

    ghost invariant = { λ g. sound record { head = g.head; entries = g.entries } ≡ true };

    ghost inverse = { λ m. record { head = m.head; entries = m.entries } };
}
