// The coefficients of powers of x and y of a two-axis cubic cell, in the order of source document 001, each times 4.
#![tactic(auto)]

pub mod table;

ghost use Rattle.std.specs.Prelude.{◌≡◌, ◌&&◌, ℕ, ◌*◌, ◌^◌, ◌<◌, ◌≤◌, eqb, nat_abs, ◌*ℤ◌, length};
ghost use Rattle.arith.specs.Sum.{sum, total};
ghost use Rattle.lattice.specs.Outcome.{refuse_unless, first};
ghost use Rattle.lattice.specs.Answers.{outcome_of};
ghost use Rattle.lattice.specs.Buffer.{at, tabulate, overwrite};
ghost use Rattle.lattice.specs.Shape.{full_outcome};
ghost use Rattle.cell.specs.Cell.{place_at};
ghost use Rattle.coefficients.specs.Blocks.{Gathered};
ghost use Rattle.powers.specs.Powers.{request_outcome, powers_outcome, powers_writes};
ghost use Rattle.powers.specs.Parts.{column_at, row_sum, row_load};

use cell::Layout;
use lattice::{FullShape, Reason, Refusal};

// By entry of a record: f, D along x, D along y, D along both.
const FACTORS: [i32; 4] = [4, 2, 2, 1];

// 1, 2, 3, 26, 24.
fn check_kind(t: FullShape) -> Result<(), Refusal>
    ensures { outcome_of result ≡ first (full_outcome t) (refuse_unless (eqb t.shape.axes 2 && eqb t.shape.degree 3) 24 0) }
{
    lattice::check_full(t)?;
    lattice::refuse_unless(
        t.shape.axes == 2 && t.shape.degree == 3,
        Reason::PowersShape,
        0,
    )
}

// 1, 2, 3, 26, 24, 4, 9, 14.
fn check_request(t: FullShape, given: usize, cell: [u32; 3], room: usize) -> Result<(), Refusal>
    ensures { outcome_of result ≡ request_outcome t given (place_at cell) room }
{
    check_kind(t)?;
    coefficients::check_sizes(t.shape, given, cell, room)
}

// The numbers of the columns: each entry of the corner records by its factor.
fn columns(l: Layout, records: &[i32]) -> [i32; 16]
    requires { Gathered 2 2 l records.now }
    ensures { (K : ℕ) → K < 16 → at result K ≡ column_at l records.now K }
{
    let factors = FACTORS;
    let mut xs = [0i32; 16];
    for k in 0..16 {
        let start = cell::corner_start(l, k % 4);
        xs[k] = factors[k / 4] * records[start + k / 4];
    }
    xs
}

// A row of the matrix by the numbers of the columns.
fn by_row(row: &[i32], xs: &[i32; 16]) -> i32
    requires { (length row.now ≡ 16) × (total 16 (λ k. nat_abs (at row.now k) * nat_abs (at xs.now k)) < 2 ^ 31) }
    ensures { result ≡ sum 16 (λ k. at row.now k *ℤ at xs.now k) }
{
    let mut sum: i32 = 0;
    for (&a, &x) in row.iter().zip(xs) {
        sum += a * x;
    }
    sum
}

// All rows to the front of `out`.
fn by_rows(matrix: &[i32; 256], xs: &[i32; 16], out: &mut [i32])
    requires { (16 ≤ length out.old) × ((R : ℕ) → R < 16 → row_load matrix.now xs.now R < 2 ^ 31) }
    ensures { out.new ≡ overwrite (tabulate 16 (row_sum matrix.now xs.now)) out.old }
{
    for r in 0..16 {
        out[r] = by_row(&matrix[16 * r..16 * r + 16], xs);
    }
}

// The power coefficients of a cell to the front of `out`.
pub fn powers(t: FullShape, records: &[i32], cell: [u32; 3], out: &mut [i32]) -> Result<(), Refusal>
    ensures result_value { outcome_of result ≡ powers_outcome t records.now (place_at cell) (length out.old) }
    ensures out_after { out.new ≡ powers_writes t records.now (place_at cell) out.old }
{
    check_request(t, records.len(), cell, out.len())?;
    let l = coefficients::corners_layout(t.shape, records, cell)?;
    let xs = columns(l, records);
    let matrix = table::matrix();
    by_rows(&matrix, &xs, out);
    Ok(())
}
