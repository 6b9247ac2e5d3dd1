// The coefficients of a cell, and back; its power coefficients.
ghost use Rattle.std.specs.Prelude.{◌≡◌};
ghost use Rattle.cell.specs.Cell.{place_at};
ghost use Rattle.lukhtari.specs.Calls.{reply, left, coefficients_of, corners_of, powers_of};

use crate::keys::Right;
use crate::{Done, Index, keys};
use lattice::FullShape;

// The coefficients of a cell.
#[unsafe(no_mangle)]
pub extern "C" fn lukhtari_coefficients(
    key: u32,
    shape: FullShape,
    records: &[i32],
    cell: Index,
    out: &mut [i32],
) -> Done
    ensures value { result ≡ reply key (coefficients_of shape records.now (place_at cell.at)) out.old }
    ensures out_after { out.new ≡ left key (coefficients_of shape records.now (place_at cell.at)) out.old }
{
    match keys::check(key, Right::Coefficients) {
        Ok(()) => Done::from(coefficients::coefficients(shape, records, cell.at, out)),
        Err(refusal) => Done::from(Err(refusal)),
    }
}

// The corner records that have these coefficients.
#[unsafe(no_mangle)]
pub extern "C" fn lukhtari_corners(
    key: u32,
    axes: u32,
    degree: u32,
    coefficients: &[i32],
    out: &mut [i32],
) -> Done
    ensures value { result ≡ reply key (corners_of axes degree coefficients.now) out.old }
    ensures out_after { out.new ≡ left key (corners_of axes degree coefficients.now) out.old }
{
    match keys::check(key, Right::Corners) {
        Ok(()) => Done::from(corners::corners(axes, degree, coefficients, out)),
        Err(refusal) => Done::from(Err(refusal)),
    }
}

// The power coefficients of a two-axis cubic cell, each times 4.
#[unsafe(no_mangle)]
pub extern "C" fn lukhtari_powers(
    key: u32,
    shape: FullShape,
    records: &[i32],
    cell: Index,
    out: &mut [i32],
) -> Done
    ensures value { result ≡ reply key (powers_of shape records.now (place_at cell.at)) out.old }
    ensures out_after { out.new ≡ left key (powers_of shape records.now (place_at cell.at)) out.old }
{
    match keys::check(key, Right::Powers) {
        Ok(()) => Done::from(powers::powers(shape, records, cell.at, out)),
        Err(refusal) => Done::from(Err(refusal)),
    }
}
