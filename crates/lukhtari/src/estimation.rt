// Estimation.
ghost use Rattle.std.specs.Prelude.{◌≡◌};
ghost use Rattle.lukhtari.specs.Calls.{reply, left, estimate_from};

use crate::keys::Right;
use crate::{Done, keys};
use lattice::FullShape;

// All records from the samples.
#[unsafe(no_mangle)]
pub extern "C" fn lukhtari_estimate(
    key: u32,
    shape: FullShape,
    samples: &[i32],
    records: &mut [i32],
) -> Done
    ensures value { result ≡ reply key (estimate_from shape samples.now) records.old }
    ensures records_after { records.new ≡ left key (estimate_from shape samples.now) records.old }
{
    match keys::check(key, Right::Estimate) {
        Ok(()) => Done::from(estimate::estimate(shape, samples, records)),
        Err(refusal) => Done::from(Err(refusal)),
    }
}
