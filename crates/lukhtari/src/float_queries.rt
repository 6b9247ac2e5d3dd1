// Doses and slopes by float.
ghost use Rattle.std.specs.Prelude.{◌≡◌};
ghost use Rattle.float_query.specs.Floats.{floats_at};
ghost use Rattle.float_query.specs.Answers.{outcome_of_float};
ghost use Rattle.lukhtari.specs.Calls.{reply, dose_at_float, slope_at_float};
ghost use Rattle.lukhtari.specs.Host.{real_value, real_of};

use crate::keys::Right;
use crate::{Real, keys};
use evaluate::Derivative;
use float_query::{FloatPosition, FloatReading};
use lattice::FullShape;

impl From<FloatReading> for Real {
    ghost from_gives = { λ answer real. real_value real ≡ real_of (outcome_of_float answer) };

    fn from(answer: FloatReading) -> Self {
        match answer {
            FloatReading::Dose(value) => Real {
                number: 0,
                place: 0,
                value,
            },
            FloatReading::Slope(value) => Real {
                number: 0,
                place: 0,
                value,
            },
            FloatReading::Refused(refusal) => Real {
                number: refusal.reason.number(),
                place: refusal.place,
                value: 0.0,
            },
        }
    }
}

// Dose at the step nearest to a position in cells.
#[unsafe(no_mangle)]
pub extern "C" fn lukhtari_dose_float(
    key: u32,
    shape: FullShape,
    records: &[i32],
    position: FloatPosition,
) -> Real
    ensures { real_value result ≡ reply key (dose_at_float shape records.now (floats_at position)) tt }
{
    let derivative = Derivative { order: 0, axis: 0 };
    match keys::check(key, Right::DoseFloat) {
        Ok(()) => Real::from(float_query::at_float(shape, records, position, derivative)),
        Err(refusal) => Real::from(FloatReading::Refused(refusal)),
    }
}

// Slope along an axis at the step nearest to a position in cells.
#[unsafe(no_mangle)]
pub extern "C" fn lukhtari_slope_float(
    key: u32,
    shape: FullShape,
    records: &[i32],
    position: FloatPosition,
    axis: u32,
) -> Real
    ensures { real_value result ≡ reply key (slope_at_float shape records.now (floats_at position) axis) tt }
{
    let derivative = Derivative { order: 1, axis };
    match keys::check(key, Right::SlopeFloat) {
        Ok(()) => Real::from(float_query::at_float(shape, records, position, derivative)),
        Err(refusal) => Real::from(FloatReading::Refused(refusal)),
    }
}
