// The layer as a transport, proved once over any transport below.
ghost use Rattle.std.specs.Prelude.{◌≡◌, ◌-◌, [], ◌++◌, length};
ghost use Rattle.transport.specs.Parcels.{parcel, Posted, Kept, measured, BeginsWith};
ghost use Rattle.transport.specs.Refusals.{post_answer, taken};
ghost use Rattle.transport.specs.Timed.{SameTerms, eight, untimed, fresh};
ghost use Rattle.transport.specs.Timings.{untimed_lawful};

use super::Expiring;
use super::readings::{take_off, write_timed};
use crate::refusal::Refusal;
use crate::transport::{MOST_BYTES, Transport};
use arrayvec::ArrayVec;

impl<T: Transport> Transport for Expiring<T> {
    ghost held = { λ e. untimed (T.held e.below) };

    ghost longest = { λ e. T.longest e.below - 8 };

    ghost is_open = { λ e. T.is_open e.below };

    ghost next = { λ e to reading. fresh e.grace reading (T.next e.below to reading) };

    ghost lawful = { λ t. untimed_lawful t.grace (T.lawful t.below) };

    // Posts below with the reading in front.
    #[tactic(auto, using(crate::proofs::Posts::posted_none, crate::proofs::Posts::posted_untimed))]
    fn post(&mut self, to: usize, reading: u64, bytes: &[u8]) -> Result<(), Refusal>
        ensures answer { result ≡ post_answer (T.is_open self.old.below to reading)
            (T.longest self.old.below - 8) (length bytes.now) }
        ensures lost { Posted (untimed (T.held self.old.below)) (taken result (parcel to bytes.now))
            (untimed (T.held self.new.below)) }
        ensures timed { Posted (T.held self.old.below) (taken result (parcel to (eight reading ++ bytes.now)))
            (T.held self.new.below) }
        ensures terms { SameTerms T.longest self.old self.new }
    {
        if bytes.is_empty() {
            return Err(Refusal::Length);
        }
        let mut whole = ArrayVec::new();
        write_timed(reading, bytes, &mut whole)?;
        self.below.post(to, reading, &whole)
    }

    // Takes below and gives what lies behind the reading; what is out of date is not given.
    #[tactic(auto, using(crate::proofs::Posts::kept_untimed, crate::proofs::Takes::message_taken))]
    fn take(&mut self, to: usize, reading: u64, place: &mut [u8; MOST_BYTES]) -> Option<usize>
        ensures answer { result ≡ measured (fresh self.old.grace reading (T.next self.old.below to reading)) }
        ensures place { BeginsWith place.new (fresh self.old.grace reading (T.next self.old.below to reading)) }
        ensures lost { Kept (untimed (T.held self.old.below)) (untimed (T.held self.new.below)) }
        ensures terms { SameTerms T.longest self.old self.new }
    {
        let len = self.below.take(to, reading, place)?;
        take_off(self.grace, reading, len, place)
    }

    // Lets every message below go, those too that are too short to be the layer's.
    fn empty(&mut self)
        ensures below { T.held self.new.below ≡ [] }
        ensures terms { SameTerms T.longest self.old self.new }
    {
        self.below.empty();
    }
}
