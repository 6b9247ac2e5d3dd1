// Doses and slopes by three float positions, as floats.
#![tactic(auto)]

ghost use Rattle.std.specs.Prelude.{◌≡◌, ◌||◌, ℕ, ◌<◌, ◌^◌, eqb, nat_abs};
ghost use Rattle.lattice.specs.Answers.{number_of};
ghost use Rattle.lattice.specs.Outcome.{done};
ghost use Rattle.evaluate.specs.Wants.{wanted, want_of};
ghost use Rattle.float_query.specs.Floats.{floats_at, by_float, held_step, finite_on, ten_number};
ghost use Rattle.float_query.specs.Answers.{outcome_of_float, float_value, in_float};

use evaluate::Derivative;
use lattice::{FullShape, Reason, Refusal};
use query::Query;

// Three positions in cells.
#[repr(C)]
#[derive(Clone, Copy)]
pub struct FloatPosition {
    pub x: f32,
    pub y: f32,
    pub z: f32,
}

// A dose, a slope or a refusal: the form that docs/DECISIONS.md names under "Forms named by document 01".
#[derive(Clone, Copy, Debug, PartialEq)]
pub enum FloatReading {
    Dose(f32),
    Slope(f32),
    Refused(Refusal),
}

// A whole-number answer as a float.
fn in_float(number: i32, order: u32) -> FloatReading
    requires { nat_abs number < 2 ^ 24 }
    ensures { (axis : ℕ) → outcome_of_float result ≡ done (float_value (want_of order axis) number) }
{
    let x = floats::whole(number);
    if order == 0 {
        FloatReading::Dose(x)
    } else {
        FloatReading::Slope(x)
    }
}

// The step of a float, below 0 where the float is not finite.
fn held_step(f: Option<i32>) -> i32
    ensures { result ≡ held_step f }
{
    f.unwrap_or(-1)
}

// Whether the float on an axis is finite.
fn finite_on(x: Option<i32>, y: Option<i32>, z: Option<i32>, axis: usize) -> bool
    ensures { result ≡ finite_on x y z axis }
{
    if axis == 0 {
        return x.is_some();
    }
    if axis == 1 {
        return y.is_some();
    }
    z.is_some()
}

// Whether a refusal is one of a step below 0, which is held for a float that is not finite.
fn of_below(reason: Reason) -> bool
    ensures { result ≡ (eqb (number_of reason) 22 || eqb (number_of reason) 23) }
{
    reason == Reason::PositionBelowZero || reason == Reason::PositionUnusedAxis
}

// A refusal at the steps of three floats: 10 for 22 and 23 where the float is not finite.
fn with_ten(r: Refusal, x: Option<i32>, y: Option<i32>, z: Option<i32>) -> Refusal
    ensures { (number_of result.reason ≡ ten_number (finite_on x y z) (number_of r.reason) r.place) × (result.place ≡ r.place) }
{
    let place = r.place;
    if of_below(r.reason) && !finite_on(x, y, z, place) {
        return Refusal {
            reason: Reason::NotFinite,
            place,
        };
    }
    r
}

// The dose or slope at three floats.
// Called and not put in, tried: on one axis it takes 12 per cent longer.
#[inline(always)]
pub fn at_float(
    t: FullShape,
    records: &[i32],
    p: FloatPosition,
    derivative: Derivative,
) -> FloatReading
    ensures { outcome_of_float result ≡ in_float (wanted derivative) (by_float t records.now (wanted derivative) (floats_at p)) }
{
    let x = floats::step_of(t.steps[0], p.x);
    let y = floats::step_of(t.steps[1], p.y);
    let z = floats::step_of(t.steps[2], p.z);
    let q = Query {
        position: [held_step(x), held_step(y), held_step(z)],
        derivative,
    };
    match query::at_position(t, records, q) {
        Ok(v) => in_float(v.number, derivative.order),
        Err(r) => FloatReading::Refused(with_ten(r, x, y, z)),
    }
}
