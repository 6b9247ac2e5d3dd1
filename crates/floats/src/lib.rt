// Float positions as steps, and whole numbers as floats.
#![tactic(auto)]

ghost use Rattle.std.specs.Prelude.{◌≡◌, false, not, ◌<◌, ◌^◌, T, pos, nat_abs, Some, None, is_some, unwrap_or};
ghost use Rattle.std.proofs.Math.Option.{some};
ghost use Rattle.std.specs.Float.{fin};
ghost use Rattle.std.specs.Float.Ieee.{is_nan};
ghost use Rattle.std.specs.Float.Ieee.Scale.{finite};
ghost use Rattle.arith.specs.Choice.{pick};
ghost use Rattle.floats.specs.Step.{step, power_of, clamped};
ghost use Rattle.floats.specs.Whole.{whole_of};
ghost use Rattle.floats.specs.Bits.{significand_of, nearest_held};

// The 24 digits of a normal float, times 512, with its sign.
fn significand(b: u32) -> i64
    ensures { result ≡ significand_of b }
{
    let m = ((b % 8388608 + 8388608) as u64 * 512) as i64;
    if b < 0x8000_0000 { m } else { -m }
}

// The whole number nearest to y, halves up, from the bits of y: where e is not 0, y is the significand over 2^(159 − e).
fn nearest(y: f32) -> i32
    requires { T (not (is_nan y)) }
    ensures { result ≡ nearest_held y }
{
    let b = y.to_bits();
    let e = b / 8388608 % 256;
    if e < 126 {
        0
    } else if e < 158 {
        arith::half_up(significand(b), 158 - e) as i32
    } else if b < 0x8000_0000 {
        i32::MAX
    } else {
        i32::MIN
    }
}

// The number of steps of an axis as a float; 256 for a number that no axis has.
fn scale_of(steps: u32) -> f32
    ensures { result ≡ fin false 1 (pos (power_of steps)) }
{
    match steps {
        16 => 16.0,
        32 => 32.0,
        64 => 64.0,
        128 => 128.0,
        _ => 256.0,
    }
}

// The step of an axis that x becomes, at most as far as an i32 goes; none where x is not finite.
pub fn step_of(steps: u32, x: f32) -> Option<i32>
    ensures result_value { result ≡ pick (finite x) (Some (clamped (step (2 ^ power_of steps) x))) None }
    ensures finite_value { is_some result ≡ finite x }
    ensures step_value { unwrap_or result (pos 0) ≡ clamped (step (2 ^ power_of steps) x) }
{
    if x.is_finite() {
        Some(nearest(x * scale_of(steps)))
    } else {
        None
    }
}

// v as a float: exact, and plus zero for 0.
pub fn whole(v: i32) -> f32
    requires { nat_abs v < 2 ^ 24 }
    ensures { whole_of result ≡ some v }
{
    v as f32
}
