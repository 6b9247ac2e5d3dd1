// A cell of a table: its index test, where its corner records stand, and the limit test of its corners.
#![tactic(auto)]

ghost use Rattle.std.specs.Prelude.{◌≡◌, true, [], ◌∷◌, ℕ, ◌+◌, ◌*◌, ◌-◌, ◌/◌, ◌%◌, ◌^◌, ◌<◌, ◌≤◌, leb, ltb, eqb, pos, nat_abs, length, get_or};
ghost use Rattle.std.specs.Int.Signed.{non_neg};
ghost use Rattle.arith.specs.Choice.{pick};
ghost use Rattle.lattice.specs.Outcome.{first, first_of, passed};
ghost use Rattle.lattice.specs.Answers.{outcome_of};
ghost use Rattle.lattice.specs.Buffer.{at, tabulate};
ghost use Rattle.lattice.specs.Digits.{digit};
ghost use Rattle.lattice.specs.Shape.{count, orders, entries, size, Shaped};
ghost use Rattle.cell.specs.Cells.{cells_along, Between};
ghost use Rattle.cell.specs.Cell.{place_at, cell_outcome, corners_outcome, Accepted, Laid, Small, start_of, limit_of, limit_in, Limits, record_outcome, CornerRows};

use lattice::{Orders, Reason, Refusal, Shape};

mod entries;

pub use entries::{EntryLimits, entry_limits};

// Where the corner records of a cell stand.
#[derive(Clone, Copy)]
pub struct Layout {
    pub orders: usize,
    pub entries: usize,
    pub base: usize,
    pub strides: [usize; 3],
}

fn index_allowed(n: u32, count: u32, index: u32, axis: u32) -> bool
    ensures { result ≡ pick (ltb axis n) (leb (index + 2) count) (eqb index 0) }
{
    lattice::by_use(n, axis, index as usize + 2 <= count as usize, index == 0)
}

// Refusal 14.
pub fn check_cell(n: u32, s: Shape, cell: [u32; 3]) -> Result<(), Refusal>
    requires { n ≡ s.axes }
    ensures { outcome_of result ≡ cell_outcome s (place_at cell) }
{
    let on_x = index_allowed(n, s.counts[0], cell[0], 0);
    let on_y = index_allowed(n, s.counts[1], cell[1], 1);
    let on_z = index_allowed(n, s.counts[2], cell[2], 2);
    lattice::check_on_axes(Reason::CellIndex, [on_x, on_y, on_z])
}

pub fn layout_of(s: Shape, cell: [u32; 3]) -> Layout
    requires shaped { Shaped s }
    requires accepted { Accepted s (place_at cell) }
    ensures { Laid s (place_at cell) result }
{
    let size = lattice::record_entries(s);
    let rows = s.counts[0] as usize;
    let planes = s.counts[1] as usize;
    let node = cell[0] as usize + rows * (cell[1] as usize + planes * cell[2] as usize);
    Layout {
        orders: lattice::orders(s.degree).count,
        entries: size,
        base: node * size,
        strides: [size, rows * size, planes * (rows * size)],
    }
}

// The cells along one axis.
fn cells_on(n: u32, count: u32, axis: u32) -> u32
    requires { 1 ≤ count }
    ensures { result ≡ pick (ltb axis n) (count - 1) 1 }
{
    if axis < n { count - 1 } else { 1 }
}

// The cells along each axis.
pub fn cells_of(s: Shape) -> [u32; 3]
    requires { Shaped s }
    ensures { result ≡ tabulate 3 (cells_along s) }
{
    let n = s.axes;
    let x = cells_on(n, s.counts[0], 0);
    let y = cells_on(n, s.counts[1], 1);
    let z = cells_on(n, s.counts[2], 2);
    [x, y, z]
}

// The indices of cell `i`, x fastest.
pub fn cell_at(cells: [u32; 3], i: u32) -> [u32; 3]
    requires { Between 1 64 cells }
    ensures { result ≡ tabulate 3 (digit (λ a. get_or cells a 0) i) }
{
    let row = i / cells[0];
    let plane = row / cells[1];
    let along_x = i % cells[0];
    let along_y = row % cells[1];
    let along_z = plane % cells[2];
    [along_x, along_y, along_z]
}

// Whether x is beyond a limit.
fn beyond(x: i32, limit: i32) -> bool
    requires { non_neg limit ≡ true }
    ensures { result ≡ ltb (nat_abs limit) (nat_abs x) }
{
    limit < x || x < 0 - limit
}

// The limit test of the record that starts at `start`.
pub fn check_record(
    limits: &[i32; 27],
    n: usize,
    records: &[i32],
    start: usize,
) -> Result<(), Refusal>
    requires { (n ≤ 27) × (start + n ≤ length records.now) × Limits n limits.now }
    ensures { outcome_of result ≡ record_outcome (limit_in limits.now) n records.now start }
{
    for e in 0..n {
        if beyond(records[start + e], limits[e]) {
            return Err(Refusal {
                reason: Reason::BeyondLimit,
                place: start + e,
            });
        }
    }
    Ok(())
}

// Not 0 where an entry of two records, one directly after the other from `start`, is beyond its limit.
fn beyond_in(limits: &[i32; 27], n: usize, records: &[i32], start: usize) -> u32
    requires { (n ≤ 27) × (start + 2 * n ≤ length records.now) × Limits n limits.now }
    ensures { eqb result 0 ≡ passed (first (record_outcome (limit_in limits.now) n records.now start) (record_outcome (limit_in limits.now) n records.now (start + n))) }
{
    let mut over: u32 = 0;
    for e in 0..n {
        let low = beyond(records[start + e], limits[e]);
        let high = beyond(records[start + n + e], limits[e]);
        over = over | (low as u32) | (high as u32);
    }
    over
}

// Where the record of corner c starts.
pub fn corner_start(l: Layout, c: usize) -> usize
    requires { (c < 8) × Small l }
    ensures { result ≡ start_of l c }
{
    let x = l.strides[0];
    let y = l.strides[1];
    let z = l.strides[2];
    l.base + (c % 2 * x + (c / 2 % 2 * y + c / 2 / 2 * z))
}

// Whether the limit test of the first 2·rows corner records is passed, those of a row at once.
pub fn all_within(limits: &[i32; 27], n: usize, rows: usize, records: &[i32], l: Layout) -> bool
    requires { CornerRows l records.now n rows × Limits n limits.now }
    ensures { result ≡ passed (first_of (2 * rows) (λ c. record_outcome (limit_in limits.now) n records.now (start_of l c))) }
{
    for row in 0..rows {
        let start = corner_start(l, 2 * row);
        if beyond_in(limits, n, records, start) != 0 {
            return false;
        }
    }
    true
}

// Refusal 5 at the first entry of the corners, in corner order, beyond its limit.
pub fn check_corners(s: Shape, records: &[i32], cell: [u32; 3], l: Layout) -> Result<(), Refusal>
    requires shaped { Shaped s × (length records.now ≡ size s) }
    requires accepted { Accepted s (place_at cell) × Laid s (place_at cell) l }
    ensures { outcome_of result ≡ corners_outcome s records.now (place_at cell) }
{
    let limits = entry_limits(Orders { count: l.orders });
    let n = l.entries;
    let corners: usize = 1 << s.axes;
    for c in 0..corners {
        let start = corner_start(l, c);
        check_record(&limits.limits, n, records, start)?;
    }
    Ok(())
}

// Whether refusal 5 does not arise on one axis: no entry of the corners is beyond its limit.
// A function of its own: its sizes are constants, and one for all numbers of axes takes a seventh longer on one axis.
pub fn line_within(s: Shape, records: &[i32], cell: [u32; 3], l: Layout) -> bool
    requires shaped { Shaped s × (length records.now ≡ size s) }
    requires accepted { Accepted s (place_at cell) × Laid s (place_at cell) l }
    requires axes_value { s.axes ≡ 1 }
    ensures { result ≡ passed (corners_outcome s records.now (place_at cell)) }
{
    if l.orders == 2 {
        return all_within(&entry_limits(Orders::cubic()).limits, 2, 1, records, l);
    }
    all_within(&entry_limits(Orders::quintic()).limits, 3, 1, records, l)
}

// The same on two or three axes.
pub fn lattice_within(n: u32, s: Shape, records: &[i32], cell: [u32; 3], l: Layout) -> bool
    requires shaped { Shaped s × (length records.now ≡ size s) }
    requires accepted { Accepted s (place_at cell) × Laid s (place_at cell) l }
    requires n_value { (n ≡ s.axes) × (2 ≤ n) }
    ensures { result ≡ passed (corners_outcome s records.now (place_at cell)) }
{
    if l.orders == 2 {
        let limits = entry_limits(Orders::cubic());
        if n == 2 {
            return all_within(&limits.limits, 4, 2, records, l);
        }
        return all_within(&limits.limits, 8, 4, records, l);
    }
    let limits = entry_limits(Orders::quintic());
    if n == 2 {
        return all_within(&limits.limits, 9, 2, records, l);
    }
    all_within(&limits.limits, 27, 4, records, l)
}
