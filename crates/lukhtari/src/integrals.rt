// The totals of a cell and of a box of cells.
ghost use Rattle.std.specs.Prelude.{◌≡◌};
ghost use Rattle.cell.specs.Cell.{place_at};
ghost use Rattle.lattice.specs.Answers.{outcome_of};
ghost use Rattle.lukhtari.specs.Calls.{reply, total_of_cell, total_of_box};
ghost use Rattle.lukhtari.specs.Host.{total_from};

use crate::keys::Right;
use crate::{Index, Total, keys};
use lattice::{FullShape, Refusal};

impl From<Result<i64, Refusal>> for Total {
    ghost from_gives = { λ answer total. total ≡ total_from (outcome_of answer) };

    fn from(answer: Result<i64, Refusal>) -> Self {
        match answer {
            Ok(numerator) => Total {
                number: 0,
                place: 0,
                numerator,
            },
            Err(refusal) => Total {
                number: refusal.reason.number(),
                place: refusal.place,
                numerator: 0,
            },
        }
    }
}

// The total of a cell, over 24^n or 120^n.
#[unsafe(no_mangle)]
pub extern "C" fn lukhtari_cell_total(
    key: u32,
    shape: FullShape,
    records: &[i32],
    cell: Index,
) -> Total
    ensures { result ≡ reply key (total_of_cell shape records.now (place_at cell.at)) tt }
{
    match keys::check(key, Right::CellTotal) {
        Ok(()) => Total::from(totals::cell_total(shape, records, cell.at)),
        Err(refusal) => Total::from(Err(refusal)),
    }
}

// The total of the cells from index `first` to index `last` on each axis, over 24^n or 120^n.
#[unsafe(no_mangle)]
pub extern "C" fn lukhtari_box_total(
    key: u32,
    shape: FullShape,
    records: &[i32],
    first: Index,
    last: Index,
) -> Total
    ensures { result ≡ reply key (total_of_box shape records.now (place_at first.at) (place_at last.at)) tt }
{
    match keys::check(key, Right::BoxTotal) {
        Ok(()) => Total::from(totals::box_total(shape, records, first.at, last.at)),
        Err(refusal) => Total::from(Err(refusal)),
    }
}
