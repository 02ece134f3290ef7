// Taking the bytes of a log into a half.
ghost use Rattle.std.specs.Prelude.{◌≡◌, is_ok, if◌then◌else◌, Some, None};
ghost use Rattle.storage.specs.Halves.{contents};
ghost use Rattle.storage.specs.Logs.{read_log};

use super::{CAPACITY, Half};
use crate::pieces::Piece;
use crate::refusals::NotALog;

impl Half {
    // Takes in a log from its front to its end; where it is not one, what stands before its fault is left here.
    pub fn replay(&mut self, bytes: &[u8]) -> Result<(), NotALog>
        ensures answer { read_log bytes.now ≡ (if is_ok result then Some (contents self.new) else None) }
    {
        self.clear();
        if bytes.len() > CAPACITY {
            return Err(NotALog);
        }
        let mut log = bytes;
        while !log.is_empty() {
            let Some((piece, rest)) = Piece::split_first(log) else {
                return Err(NotALog);
            };
            self.append(piece);
            log = rest;
        }
        Ok(())
    }
}
