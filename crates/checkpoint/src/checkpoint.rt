// The checkpoint as a value of its own.
use gossip::{Gossip, MOST, Timestamp};
use std::marker::Model;

mod building;

// A checkpoint that can be written, seen as what it says: its message keeps every rule of the format but that of its kind, and its rows are those of the message's sender.
#[derive(Clone, Copy)]
pub struct Checkpoint {
    pub(crate) message: Gossip,
    pub(crate) rows: [Timestamp; MOST],
}

impl Model for Checkpoint {
    ghost use Rattle.std.specs.Prelude.{◌≡◌, true};
    ghost use Rattle.checkpoint.specs.Checkpoints.{Saved, sound_saved};

    ghost Value = { Saved };

    ghost view = { λ c. record { message = c.message; rows = c.rows } };

    ghost invariant = { λ c. sound_saved record { message = c.message; rows = c.rows } ≡ true };

    ghost inverse = { λ s. record { message = s.message; rows = s.rows } };
}
