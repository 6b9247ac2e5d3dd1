// Doses along a list of positions.
ghost use Rattle.std.specs.Prelude.{◌≡◌};
ghost use Rattle.lattice.specs.Answers.{outcome_of};
ghost use Rattle.lukhtari.specs.Calls.{reply, left, ramp_of};
ghost use Rattle.lukhtari.specs.Host.{ramped_from};

use crate::keys::Right;
use crate::{Ramped, keys};
use lattice::{FullShape, Refusal};

impl From<Result<usize, Refusal>> for Ramped {
    ghost from_gives = { λ answer ramped. ramped ≡ ramped_from (outcome_of answer) };

    fn from(answer: Result<usize, Refusal>) -> Self {
        match answer {
            Ok(fetches) => Ramped {
                number: 0,
                place: 0,
                fetches,
            },
            Err(refusal) => Ramped {
                number: refusal.reason.number(),
                place: refusal.place,
                fetches: 0,
            },
        }
    }
}

// The doses at the positions of a list, three numbers each, to the front of `answers`.
#[unsafe(no_mangle)]
pub extern "C" fn lukhtari_ramp(
    key: u32,
    shape: FullShape,
    records: &[i32],
    positions: &[i32],
    answers: &mut [i32],
) -> Ramped
    ensures value { result ≡ reply key (ramp_of shape records.now positions.now) answers.old }
    ensures answers_after { answers.new ≡ left key (ramp_of shape records.now positions.now) answers.old }
{
    match keys::check(key, Right::Ramp) {
        Ok(()) => Ramped::from(ramp::ramp(shape, records, positions, answers)),
        Err(refusal) => Ramped::from(Err(refusal)),
    }
}
