// The totals of a cell and of a box of cells: the integral of the exact interpolant, as a whole numerator over 24^n or 120^n.
#![tactic(auto)]

ghost use Rattle.std.specs.Prelude.{◌≡◌, ◌&&◌, ℕ, ◌+◌, ◌*◌, ◌-◌, ◌/◌, ◌%◌, ◌^◌, ◌<◌, ◌≤◌, leb, ltb, eqb, nat_abs, ◌+ℤ◌, ◌*ℤ◌, length, get_or};
ghost use Rattle.arith.specs.Choice.{pick};
ghost use Rattle.arith.specs.Sum.{total};
ghost use Rattle.lattice.specs.Outcome.{done, first, first_of};
ghost use Rattle.lattice.specs.Answers.{outcome_of};
ghost use Rattle.lattice.specs.Buffer.{at};
ghost use Rattle.lattice.specs.Shape.{orders, size, Shaped};
ghost use Rattle.lattice.specs.Records.{records_field};
ghost use Rattle.cell.specs.Cell.{place_at, limit_in, record_outcome};
ghost use Rattle.totals.specs.Totals.{box_numerator, table_outcome, cell_total, box_outcome, records_outcome, box_total};
ghost use Rattle.totals.specs.Parts.{taken_at, Boxed, row_count, row_start, across, group_sum, record_sum, row_sum, rows_sum, EntriesWithin, Walk};

use cell::{EntryLimits, Layout};
use lattice::{FullShape, Orders, Reason, Refusal, Shape};

// ---- tests

// 1, 2, 3, 26, 4.
fn check_table(t: FullShape, given: usize) -> Result<(), Refusal>
    ensures { outcome_of result ≡ table_outcome t given }
{
    lattice::check_full(t)?;
    lattice::refuse_unless(given == lattice::table_entries(t.shape), Reason::Length, 0)
}

// Whether the first and the last index of a box are allowed on one axis.
fn indices_allowed(n: u32, count: u32, from: u32, to: u32, axis: u32) -> bool
    ensures { result ≡ (leb from to && pick (ltb axis n) (leb (to + 2) count) (eqb to 0)) }
{
    let last = lattice::by_use(n, axis, to as usize + 2 <= count as usize, to == 0);
    from <= to && last
}

// Refusal 29.
fn check_box(s: Shape, from: [u32; 3], to: [u32; 3]) -> Result<(), Refusal>
    ensures { outcome_of result ≡ box_outcome s (place_at from) (place_at to) }
{
    let n = s.axes;
    let on_x = indices_allowed(n, s.counts[0], from[0], to[0], 0);
    let on_y = indices_allowed(n, s.counts[1], from[1], to[1], 1);
    let on_z = indices_allowed(n, s.counts[2], from[2], to[2], 2);
    lattice::check_on_axes(Reason::BoxIndex, [on_x, on_y, on_z])
}

// The limit test of `nodes` records, the first from `start` on.
fn check_row(
    limits: &EntryLimits,
    n: usize,
    nodes: usize,
    records: &[i32],
    start: usize,
) -> Result<(), Refusal>
    requires { (n ≤ 27) × (nodes ≤ 64) × (start + n * nodes ≤ length records.now) }
    ensures { outcome_of result ≡ first_of nodes (λ i. record_outcome (limit_in limits.now.limits) n records.now (start + n * i)) }
{
    for i in 0..nodes {
        cell::check_record(&limits.limits, n, records, start + n * i)?;
    }
    Ok(())
}

// ---- sums

// What the total of `cells` cells takes of the orders at a node; 1 of the value along an unused axis, which has no cells.
fn factors(m: Orders, cells: usize, node: usize) -> [i64; 3]
    requires { node ≤ cells }
    ensures { (o : ℕ) → o < m.count → at result o ≡ taken_at m.count cells node o }
{
    if cells == 0 {
        return [1, 0, 0];
    }
    if m.count == 2 {
        if node == 0 {
            return [12, 1, 0];
        }
        if node == cells {
            return [12, -1, 0];
        }
        return [24, 0, 0];
    }
    if node == 0 {
        return [60, 6, 1];
    }
    if node == cells {
        return [60, -6, 1];
    }
    [120, 0, 2]
}

// One product more.
fn added(sum: i64, factor: i64, x: i64) -> i64
    requires { nat_abs sum + nat_abs factor * nat_abs x < 2 ^ 63 }
    ensures { result ≡ sum +ℤ factor *ℤ x }
{
    sum + factor * x
}

// The orders along x of the group at index p.
fn group_sum(m: Orders, x: [i64; 3], records: &[i32], p: usize) -> i64
    requires { (p + m.count ≤ length records.now) × (total m.count (λ o. nat_abs (at x o)) ≤ 128) }
    ensures value { result ≡ group_sum m.count (at x) records.now p }
    ensures low { nat_abs result ≤ 2 ^ 38 }
{
    let value = added(0, x[0], records[p] as i64);
    let two = added(value, x[1], records[p + 1] as i64);
    if m.count == 2 {
        return two;
    }
    added(two, x[2], records[p + 2] as i64)
}

// The groups of the record at index p.
fn record_sum(m: Orders, x: [i64; 3], ys: &[i64], records: &[i32], p: usize) -> i64
    requires long { (length ys.now ≤ 9) × (p + m.count * length ys.now ≤ length records.now) }
    requires light { (total m.count (λ o. nat_abs (at x o)) ≤ 128) × (total (length ys.now) (λ g. nat_abs (at ys.now g)) ≤ 2 ^ 14) }
    ensures value { result ≡ record_sum m.count (length ys.now) (at x) (at ys.now) records.now p }
    ensures low { nat_abs result ≤ 2 ^ 52 }
{
    let mut sum: i64 = 0;
    for g in 0..ys.len() {
        sum = added(sum, ys[g], group_sum(m, x, records, p + m.count * g));
    }
    sum
}

// The rows of nodes of a box: where its records stand, and its cells along each axis.
#[derive(Clone, Copy)]
struct Rows<'a> {
    layout: Layout,
    cells: [usize; 3],
    records: &'a [i32],
    ghost some: { 1 ≤ layout.entries },
    ghost walk: { Walk layout cells (length records.now) },
}

impl Rows<'_> {
    fn count(&self) -> usize
        ensures { (result ≡ row_count self.now.cells) × (result ≤ 4096) }
    {
        (self.cells[1] + 1) * (self.cells[2] + 1)
    }

    // Where the record of the first node of row r stands.
    fn start(&self, r: usize) -> usize
        requires { r < row_count self.now.cells }
        ensures { result ≡ row_start self.now.layout self.now.cells r }
    {
        let rows = self.cells[1] + 1;
        let [_, y, z] = self.layout.strides;
        self.layout.base + (r % rows * y + r / rows * z)
    }

    // The limit test of the records of all rows.
    fn check(&self, limits: &EntryLimits) -> Result<(), Refusal>
        ensures { outcome_of result ≡ first_of (row_count self.now.cells) (λ r. first_of (get_or self.now.cells 0 0 + 1) (λ i. record_outcome (limit_in limits.now.limits) self.now.layout.entries self.now.records.now (row_start self.now.layout self.now.cells r + self.now.layout.entries * i))) }
    {
        let nodes = self.cells[0] + 1;
        for r in 0..self.count() {
            check_row(
                limits,
                self.layout.entries,
                nodes,
                self.records,
                self.start(r),
            )?;
        }
        Ok(())
    }

    // What the total takes of the orders along y and z in row r; 0 past the groups of a record.
    fn across(&self, r: usize) -> [i64; 9]
        requires { r < row_count self.now.cells }
        ensures { (g : ℕ) → g < self.now.layout.entries / self.now.layout.orders → at result g ≡ across self.now.layout.orders self.now.cells r g }
    {
        let m = Orders {
            count: self.layout.orders,
        };
        let rows = self.cells[1] + 1;
        let y = factors(m, self.cells[1], r % rows);
        let z = factors(m, self.cells[2], r / rows);
        let mut ys = [0i64; 9];
        for g in 0..self.layout.entries / m.count {
            ys[g] = y[g % m.count] * z[g / m.count];
        }
        ys
    }

    // The records of a row, ys being what the total takes across it.
    fn row_sum(&self, ys: &[i64], row: &[i32]) -> i64
        requires long { (length ys.now ≡ self.now.layout.entries / self.now.layout.orders) × (length row.now ≡ self.now.layout.entries * (get_or self.now.cells 0 0 + 1)) }
        requires light { total (length ys.now) (λ g. nat_abs (at ys.now g)) ≤ 2 ^ 14 }
        ensures { result ≡ row_sum self.now.layout.orders (length ys.now) (get_or self.now.cells 0 0) (at ys.now) row.now 0 }
    {
        let m = Orders {
            count: self.layout.orders,
        };
        let entries = self.layout.entries;
        let cells = self.cells[0];
        let mut sum: i64 = 0;
        for i in 0..cells + 1 {
            let x = factors(m, cells, i);
            sum += record_sum(m, x, ys, row, entries * i);
        }
        sum
    }

    fn sum(&self) -> i64
        requires { (r : ℕ) → r < row_count self.now.cells → EntriesWithin (2 ^ 21) self.now.records.now (row_start self.now.layout self.now.cells r) (self.now.layout.entries * (get_or self.now.cells 0 0 + 1)) }
        ensures { result ≡ rows_sum self.now.layout.orders (self.now.layout.entries / self.now.layout.orders) self.now.layout self.now.cells self.now.records.now }
    {
        let groups = self.layout.entries / self.layout.orders;
        let long = self.layout.entries * (self.cells[0] + 1);
        let mut sum: i64 = 0;
        for r in 0..self.count() {
            let ys = self.across(r);
            let start = self.start(r);
            sum += self.row_sum(&ys[..groups], &self.records[start..start + long]);
        }
        sum
    }
}

// ---- calls

// The cells along one axis of a box, 0 along an unused one.
fn cells_on(n: u32, axis: u32, from: u32, to: u32) -> usize
    requires { from ≤ to }
    ensures { result ≡ pick (ltb axis n) (to + 1 - from) 0 }
{
    if axis < n {
        (to - from) as usize + 1
    } else {
        0
    }
}

// The cells along each axis of a box.
fn cells_of(n: u32, from: [u32; 3], to: [u32; 3]) -> [usize; 3]
    requires { (a : ℕ) → place_at from a ≤ place_at to a }
    ensures { (a : ℕ) → a < 3 → get_or result a 0 ≡ pick (ltb a n) (place_at to a + 1 - place_at from a) 0 }
{
    let x = cells_on(n, 0, from[0], to[0]);
    let y = cells_on(n, 1, from[1], to[1]);
    let z = cells_on(n, 2, from[2], to[2]);
    [x, y, z]
}

// The total of a box, or 5.
fn total_in(s: Shape, records: &[i32], from: [u32; 3], to: [u32; 3]) -> Result<i64, Refusal>
    requires { Shaped s × (length records.now ≡ size s) × Boxed s (place_at from) (place_at to) }
    ensures { outcome_of result ≡ first (records_outcome s records.now (place_at from) (place_at to)) (done (box_numerator (orders s) s.axes (place_at from) (place_at to) (records_field s records.now))) }
{
    let layout = cell::layout_of(s, from);
    let cells = cells_of(s.axes, from, to);
    let rows = Rows {
        layout,
        cells,
        records,
    };
    rows.check(&cell::entry_limits(Orders {
        count: layout.orders,
    }))?;
    Ok(rows.sum())
}

// The total of a cell.
pub fn cell_total(t: FullShape, records: &[i32], cell: [u32; 3]) -> Result<i64, Refusal>
    ensures { outcome_of result ≡ cell_total t records.now (place_at cell) }
{
    check_table(t, records.len()).and(cell::check_cell(t.shape.axes, t.shape, cell))?;
    total_in(t.shape, records, cell, cell)
}

// The total of the box of the cells from index `from` to index `to`.
pub fn box_total(
    t: FullShape,
    records: &[i32],
    from: [u32; 3],
    to: [u32; 3],
) -> Result<i64, Refusal>
    ensures { outcome_of result ≡ box_total t records.now (place_at from) (place_at to) }
{
    check_table(t, records.len()).and(check_box(t.shape, from, to))?;
    total_in(t.shape, records, from, to)
}
