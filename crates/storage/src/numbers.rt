// The numbers that bytes are saved for.
ghost use Rattle.std.specs.Prelude.{◌≤◌};

use crate::refusals::Refusal;
use crate::store::LAST_NUMBER;

// A number that every store has, 0 to 6.
#[derive(Clone, Copy)]
pub struct Number {
    pub value: usize,
    ghost known: { value ≤ 6 },
}

// A number above 6 is refused.
impl TryFrom<usize> for Number {
    ghost use Rattle.std.specs.Prelude.{◌≡◌, ◌<◌, ◌≤◌, MatchResult};
    ghost use Rattle.storage.specs.declared.refusals.Refusal.TheVariants.{Number as NumberAbove};

    type Error = Refusal;

    ghost try_from_gives = { λ n r. MatchResult r (λ k. (n ≤ 6) × (k.value ≡ n)) (λ e. (6 < n) × (e ≡ NumberAbove)) };

    fn try_from(value: usize) -> Result<Number, Refusal> {
        if value > LAST_NUMBER {
            return Err(Refusal::Number);
        }
        Ok(Number { value })
    }
}
