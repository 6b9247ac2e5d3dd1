// Doses, slopes and curvatures in whole numbers, by position and by cell.
ghost use Rattle.std.specs.Prelude.{◌≡◌};
ghost use Rattle.cell.specs.Cell.{place_at};
ghost use Rattle.query.specs.Queries.{position_at};
ghost use Rattle.query.specs.Answers.{outcome_of_reading, is_exact};
ghost use Rattle.lukhtari.specs.Calls.{reply, dose_at, slope_at, curvature_at, dose_in_cell, slope_in_cell, curvature_in_cell};
ghost use Rattle.lukhtari.specs.Host.{whole_from, marked_from};

use crate::keys::Right;
use crate::{Index, Marked, Position, Whole, keys};
use evaluate::{Derivative, Value};
use lattice::{FullShape, Refusal};
use query::{CellQuery, Query};

impl From<Result<Value, Refusal>> for Whole {
    ghost from_gives = { λ answer whole. whole ≡ whole_from (outcome_of_reading answer) };

    fn from(answer: Result<Value, Refusal>) -> Self {
        match answer {
            Ok(value) => Whole {
                number: 0,
                place: 0,
                value: value.number,
            },
            Err(refusal) => Whole {
                number: refusal.reason.number(),
                place: refusal.place,
                value: 0,
            },
        }
    }
}

impl From<Result<Value, Refusal>> for Marked {
    ghost from_gives = { λ answer marked. marked ≡ marked_from (outcome_of_reading answer) (is_exact answer) };

    fn from(answer: Result<Value, Refusal>) -> Self {
        match answer {
            Ok(value) => Marked {
                number: 0,
                place: 0,
                value: value.number,
                exact: value.exact,
            },
            Err(refusal) => Marked {
                number: refusal.reason.number(),
                place: refusal.place,
                value: 0,
                exact: false,
            },
        }
    }
}

// Dose at a table position.
#[unsafe(no_mangle)]
pub extern "C" fn lukhtari_dose(
    key: u32,
    shape: FullShape,
    records: &[i32],
    position: Position,
) -> Marked
    ensures { result ≡ reply key (dose_at shape records.now (position_at position.at)) tt }
{
    let position = position.at;
    let query = Query {
        position,
        derivative: Derivative { order: 0, axis: 0 },
    };
    match keys::check(key, Right::Dose) {
        Ok(()) => Marked::from(query::at_position(shape, records, query)),
        Err(refusal) => Marked::from(Err(refusal)),
    }
}

// Slope along an axis at a table position.
#[unsafe(no_mangle)]
pub extern "C" fn lukhtari_slope(
    key: u32,
    shape: FullShape,
    records: &[i32],
    position: Position,
    axis: u32,
) -> Whole
    ensures { result ≡ reply key (slope_at shape records.now (position_at position.at) axis) tt }
{
    let position = position.at;
    let query = Query {
        position,
        derivative: Derivative { order: 1, axis },
    };
    match keys::check(key, Right::Slope) {
        Ok(()) => Whole::from(query::at_position(shape, records, query)),
        Err(refusal) => Whole::from(Err(refusal)),
    }
}

// Curvature along an axis at a table position.
#[unsafe(no_mangle)]
pub extern "C" fn lukhtari_curvature(
    key: u32,
    shape: FullShape,
    records: &[i32],
    position: Position,
    axis: u32,
) -> Whole
    ensures { result ≡ reply key (curvature_at shape records.now (position_at position.at) axis) tt }
{
    let position = position.at;
    let query = Query {
        position,
        derivative: Derivative { order: 2, axis },
    };
    match keys::check(key, Right::Curvature) {
        Ok(()) => Whole::from(query::at_position(shape, records, query)),
        Err(refusal) => Whole::from(Err(refusal)),
    }
}

// Dose at the steps u within a cell.
#[unsafe(no_mangle)]
pub extern "C" fn lukhtari_dose_in_cell(
    key: u32,
    shape: FullShape,
    records: &[i32],
    cell: Index,
    u: Index,
) -> Marked
    ensures { result ≡ reply key (dose_in_cell shape records.now (place_at cell.at) (place_at u.at)) tt }
{
    let cell = cell.at;
    let step = u.at;
    let query = CellQuery {
        cell,
        step,
        derivative: Derivative { order: 0, axis: 0 },
    };
    match keys::check(key, Right::DoseInCell) {
        Ok(()) => Marked::from(query::in_cell(shape, records, query)),
        Err(refusal) => Marked::from(Err(refusal)),
    }
}

// Slope along an axis at the steps u within a cell.
#[unsafe(no_mangle)]
pub extern "C" fn lukhtari_slope_in_cell(
    key: u32,
    shape: FullShape,
    records: &[i32],
    cell: Index,
    u: Index,
    axis: u32,
) -> Whole
    ensures { result ≡ reply key (slope_in_cell shape records.now (place_at cell.at) (place_at u.at) axis) tt }
{
    let cell = cell.at;
    let step = u.at;
    let query = CellQuery {
        cell,
        step,
        derivative: Derivative { order: 1, axis },
    };
    match keys::check(key, Right::SlopeInCell) {
        Ok(()) => Whole::from(query::in_cell(shape, records, query)),
        Err(refusal) => Whole::from(Err(refusal)),
    }
}

// Curvature along an axis at the steps u within a cell.
#[unsafe(no_mangle)]
pub extern "C" fn lukhtari_curvature_in_cell(
    key: u32,
    shape: FullShape,
    records: &[i32],
    cell: Index,
    u: Index,
    axis: u32,
) -> Whole
    ensures { result ≡ reply key (curvature_in_cell shape records.now (place_at cell.at) (place_at u.at) axis) tt }
{
    let cell = cell.at;
    let step = u.at;
    let query = CellQuery {
        cell,
        step,
        derivative: Derivative { order: 2, axis },
    };
    match keys::check(key, Right::CurvatureInCell) {
        Ok(()) => Whole::from(query::in_cell(shape, records, query)),
        Err(refusal) => Whole::from(Err(refusal)),
    }
}
