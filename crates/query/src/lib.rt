// Doses, slopes and curvatures by cell and in-cell step, and by table position.
#![tactic(auto)]

ghost use Rattle.std.specs.Prelude.{◌≡◌, Bool, true, false, List, [], ◌∷◌, ℕ, ◌+◌, ◌*◌, ◌-◌, ◌/◌, ◌^◌, ◌≤◌, ◌<◌, leb, ltb, eqb, ℤ, length, get_or};
ghost use Rattle.arith.specs.Choice.{pick};
ghost use Rattle.lattice.specs.Outcome.{done, refused, refuse_unless, passed};
ghost use Rattle.lattice.specs.Answers.{number_of, outcome_of};
ghost use Rattle.lattice.specs.Shape.{count, steps_on, step_number, steps_allowed, finest_on, size, Shaped};
ghost use Rattle.hermite.specs.Hermite.{steps};
ghost use Rattle.cell.specs.Cell.{place_at, corners_outcome, Accepted, Laid};
ghost use Rattle.arith.specs.Int.{rounding_of};
ghost use Rattle.lattice.specs.Records.{records_field};
ghost use Rattle.evaluate.specs.Evaluate.{derivative_along, ask_at, answer_by, exact_by};
ghost use Rattle.evaluate.specs.Stages.{Ready};
ghost use Rattle.evaluate.specs.Wants.{wanted};
ghost use Rattle.query.specs.Answers.{outcome_of_reading, is_exact, Marks, InFinest};
ghost use Rattle.query.specs.Parts.{below, position_number, number_by, finest, factor_for, scaled, scaled_position, cell_on, InCells, Stand};
ghost use Rattle.query.specs.Queries.{want_outcome, asked_outcome, tested_outcome, reading, steps_outcome, by_cell, position_at, cell_of, by_position, cell_mark, position_mark};

use cell::Layout;
use evaluate::{Derivative, Value};
use lattice::{FullShape, Reason, Refusal, Shape};

// A table position, and what is asked for there.
#[derive(Clone, Copy)]
pub struct Query {
    pub position: [i32; 3],
    pub derivative: Derivative,
}

// A cell and an in-cell step, and what is asked for there.
#[derive(Clone, Copy)]
pub struct CellQuery {
    pub cell: [u32; 3],
    pub step: [u32; 3],
    pub derivative: Derivative,
}

// Refusals 12 and 21 of a derivative on n axes.
fn check_derivative(n: u32, s: Shape, d: Derivative) -> Result<(), Refusal>
    requires { n ≡ s.axes }
    ensures { outcome_of result ≡ want_outcome s (derivative_along d.order d.axis) }
{
    let used = d.axis < n;
    let low = (d.order as usize) < lattice::orders(s.degree).count;
    lattice::refuse_unless(used, Reason::SlopeAxis, 0)?;
    lattice::refuse_unless(low, Reason::CurvatureDegree, 0)
}

// Refusals 2, 3, 4, 12 and 21 on n axes, of `given` records' entries; here and below every used axis has 256 steps.
fn check_asked(n: u32, s: Shape, given: usize, d: Derivative) -> Result<(), Refusal>
    requires { (1 ≤ n) × (n ≤ 3) × (n ≡ s.axes) }
    ensures { (even : Bool) (rs : List ℤ) → length rs ≡ given → outcome_of result ≡ asked_outcome (finest s even) rs (wanted d) }
{
    lattice::check_table(n, s)?;
    lattice::refuse_unless(given == lattice::table_entries(s), Reason::Length, 0)?;
    if d.order == 0 {
        return Ok(());
    }
    // Order 1 is below m in both degrees: one test less for a slope.
    if d.order == 1 {
        return lattice::refuse_unless(d.axis < n, Reason::SlopeAxis, 0);
    }
    check_derivative(n, s, d)
}

// Refusals 23 and 11 of an in-cell step on an axis.
fn check_step(n: u32, step: u32, axis: u32) -> Result<(), Refusal>
    ensures { outcome_of result ≡ refuse_unless (pick (ltb axis n) (leb step steps) (eqb step 0)) (pick (ltb axis n) 11 23) axis }
{
    let place = axis as usize;
    if axis < n {
        lattice::refuse_unless(step <= 256, Reason::PositionBeyond, place)
    } else {
        lattice::refuse_unless(step == 0, Reason::PositionUnusedAxis, place)
    }
}

// Refusals 23 and 11 of an in-cell step.
pub fn check_steps(n: u32, s: Shape, step: [u32; 3]) -> Result<(), Refusal>
    requires { n ≡ s.axes }
    ensures { (even : Bool) → outcome_of result ≡ steps_outcome (finest s even) (place_at step) }
{
    check_step(n, step[0], 0)?;
    check_step(n, step[1], 1)?;
    check_step(n, step[2], 2)
}

// Whether a position is below 0, by its cell and in-cell step.
fn is_below(cell: u32, step: u32) -> bool
    ensures { result ≡ leb (2 ^ 31) (steps * cell + step) }
{
    2147483648 <= 256 * (cell as u64) + step as u64
}

// Whether the position on an axis is below 0.
pub fn is_below_zero(axis: usize, cell: [u32; 3], step: [u32; 3]) -> bool
    ensures { result ≡ below (place_at cell) (place_at step) axis }
{
    // No array is indexed by a variable, so that a query's numbers stay in registers.
    if axis == 0 {
        return is_below(cell[0], step[0]);
    }
    if axis == 1 {
        return is_below(cell[1], step[1]);
    }
    axis == 2 && is_below(cell[2], step[2])
}

// The reason of a refusal by position: 22 for 11 where the position is below 0; found for refusals alone, so that no answer waits.
pub fn position_reason(reason: Reason, axis: usize, cell: [u32; 3], step: [u32; 3]) -> Reason
    ensures { number_of result ≡ position_number (place_at cell) (place_at step) (number_of reason) axis }
{
    match reason {
        Reason::PositionBeyond => {
            if is_below_zero(axis, cell, step) {
                Reason::PositionBelowZero
            } else {
                reason
            }
        }
        _ => reason,
    }
}

// Refusals 2, 3, 4, 12, 21, 14, 23 and 11 on n axes.
// Called and not put in, tried: a query on one axis takes 30 per cent longer.
#[inline(always)]
fn check_query(n: u32, s: Shape, given: usize, q: CellQuery) -> Result<(), Refusal>
    requires { (1 ≤ n) × (n ≤ 3) × (n ≡ s.axes) }
    ensures { (even : Bool) (rs : List ℤ) → length rs ≡ given → outcome_of result ≡ tested_outcome (finest s even) rs (wanted q.derivative) (place_at q.cell) (place_at q.step) }
{
    check_asked(n, s, given, q.derivative)?;
    cell::check_cell(n, s, q.cell)?;
    check_steps(n, s, q.step)
}

// Refusals 1, 2, 3, 4, 12, 21, 14, 23 and 11; the number of axes is a constant where the tests are made.
fn check_by_axes(s: Shape, given: usize, q: CellQuery) -> Result<(), Refusal>
    ensures { (even : Bool) (rs : List ℤ) → length rs ≡ given → outcome_of result ≡ tested_outcome (finest s even) rs (wanted q.derivative) (place_at q.cell) (place_at q.step) }
{
    let n = s.axes;
    if n == 3 {
        return check_query(3, s, given, q);
    }
    if n == 2 {
        return check_query(2, s, given, q);
    }
    if n == 1 {
        return check_query(1, s, given, q);
    }
    lattice::refuse_unless(false, Reason::Axes, 0)
}

// Refusal 5 of the cell's corners.
fn beyond(s: Shape, records: &[i32], cell: [u32; 3], l: Layout) -> Refusal
    requires shaped { Shaped s × (length records.now ≡ size s) }
    requires accepted { Accepted s (place_at cell) × Laid s (place_at cell) l }
    requires cell_value { passed (corners_outcome s records.now (place_at cell)) ≡ false }
    ensures { refused (number_of result.reason) result.place ≡ corners_outcome s records.now (place_at cell) }
{
    cell::check_corners(s, records, cell, l).unwrap_err()
}

// Whether refusal 5 does not arise.
fn within(s: Shape, records: &[i32], cell: [u32; 3], l: Layout) -> bool
    requires shaped { Shaped s × (length records.now ≡ size s) }
    requires accepted { Accepted s (place_at cell) × Laid s (place_at cell) l }
    ensures { result ≡ passed (corners_outcome s records.now (place_at cell)) }
{
    if s.axes == 1 {
        cell::line_within(s, records, cell, l)
    } else {
        cell::lattice_within(s.axes, s, records, cell, l)
    }
}

// The dose or derivative at a step of a cell; here and below `even` is set in edition two.
fn value_at(s: Shape, even: bool, records: &[i32], q: CellQuery, l: Layout) -> Value
    requires { Ready s records.now (place_at q.cell) (place_at q.step) (wanted q.derivative) l }
    ensures number_value { result.number ≡ answer_by (rounding_of even) (ask_at s (wanted q.derivative) (place_at q.cell) (place_at q.step)) (records_field s records.now) }
    ensures exact_value { result.exact ≡ exact_by (rounding_of even) (ask_at s (wanted q.derivative) (place_at q.cell) (place_at q.step)) (records_field s records.now) }
{
    if s.axes == 1 {
        evaluate::on_line(s, even, records, q.cell, q.step, q.derivative, l)
    } else {
        evaluate::on_lattice(s, even, records, q.cell, q.step, q.derivative, l)
    }
}

// Refusal 5, or the dose or derivative, of a query that passed the tests before.
fn read_cell(s: Shape, even: bool, records: &[i32], q: CellQuery) -> Result<Value, Refusal>
    requires { tested_outcome (finest s even) records.now (wanted q.derivative) (place_at q.cell) (place_at q.step) ≡ done tt }
    ensures result_value { outcome_of_reading result ≡ reading (finest s even) records.now (wanted q.derivative) (place_at q.cell) (place_at q.step) }
    ensures marks { Marks result (cell_mark (finest s even) records.now (wanted q.derivative) (place_at q.cell) (place_at q.step)) }
{
    let l = cell::layout_of(s, q.cell);
    if within(s, records, q.cell, l) {
        return Ok(value_at(s, even, records, q, l));
    }
    Err(beyond(s, records, q.cell, l))
}

// Whether every used axis has 256 steps; nothing is told of a table without axes.
pub fn is_finest(t: FullShape) -> bool
    ensures { result ≡ true → 1 ≤ t.shape.axes → (a : ℕ) → a < 3 → steps_on t a ≡ finest_on t.shape.axes a }
{
    let n = t.shape.axes;
    if t.steps[0] != 256 {
        return false;
    }
    if t.steps[1] != lattice::finest_on(n, 1) {
        return false;
    }
    t.steps[2] == lattice::finest_on(n, 2)
}

// How many of 256 steps a step is; 0 where the step number is none of the five.
// 0 stays for none: so says the clause of `factor_on`, and a product by it is never taken.
fn factor_of(steps: u32) -> u32
    ensures { (step_number steps ≡ true → result ≡ 256 / steps) × (step_number steps ≡ false → result ≡ 0) × (result ≤ 16) }
{
    // Two groups are told apart by comparisons, which no table of jumps replaces.
    if steps < 64 {
        if steps == 16 {
            return 16;
        }
        return if steps == 32 { 8 } else { 0 };
    }
    if steps == 64 {
        return 4;
    }
    if steps == 128 {
        return 2;
    }
    if steps == 256 { 1 } else { 0 }
}

// The same on an axis of a table of n axes: 1 on an unused axis; 0 where the step number is not allowed.
pub fn factor_on(n: u32, steps: u32, axis: u32) -> u32
    ensures { (steps_allowed n steps axis ≡ true → result ≡ factor_for n steps axis) × (steps_allowed n steps axis ≡ false → result ≡ 0) × (result ≤ 16) }
{
    if axis < n {
        return factor_of(steps);
    }
    if steps == 1 { 1 } else { 0 }
}

// A number of steps in steps of 256; what lies beyond every table stays there.
pub fn scaled(factor: u32, v: u32) -> u32
    requires { factor ≤ 16 }
    ensures { result ≡ scaled factor v }
{
    if v <= 16128 { factor * v } else { v }
}

// A position in steps of 256.
pub fn scaled_position(factor: u32, p: i32) -> i32
    requires { factor ≤ 16 }
    ensures { result ≡ scaled_position factor p }
{
    let v = arith::unsigned(p);
    if v <= 16128 {
        return (factor * v) as i32;
    }
    p
}

// The cell of a position on an axis of `count` nodes.
pub fn cell_of(count: u32, p: u32) -> u32
    ensures { result ≡ cell_of steps count p }
{
    (p / 256).min(count.saturating_sub(2))
}

// What a position has beyond the start of its cell.
fn rest_of(p: u32, cell: u32) -> u32
    requires { 256 * cell ≤ p }
    ensures { result ≡ p - 256 * cell }
{
    p - 256 * cell
}

// The cell of a position on an axis; 0 on an unused axis.
fn cell_on(s: Shape, axis: usize, p: u32) -> u32
    requires { axis < 3 }
    ensures { result ≡ cell_on s axis p }
{
    if (axis as u32) < s.axes {
        cell_of(s.counts[axis], p)
    } else {
        0
    }
}

// The query by the cells and in-cell steps of the three positions that stand in the step's place; the cell on an unused axis is 0.
fn located(s: Shape, q: CellQuery) -> CellQuery
    ensures same { result.derivative ≡ q.derivative }
    ensures in_cells { InCells s q.step result.cell result.step }
{
    let [x, y, z] = q.step;
    let i = cell_of(s.counts[0], x);
    let j = cell_on(s, 1, y);
    let k = cell_on(s, 2, z);
    CellQuery {
        cell: [i, j, k],
        step: [rest_of(x, i), rest_of(y, j), rest_of(z, k)],
        derivative: q.derivative,
    }
}

// A query by its cell and in-cell step: itself by cell, else that of its position.
fn spot_of(cellwise: bool, s: Shape, q: CellQuery) -> CellQuery
    ensures same { result.derivative ≡ q.derivative }
    ensures by_cell { cellwise ≡ true → (result.cell ≡ q.cell) × (result.step ≡ q.step) }
    ensures by_position { cellwise ≡ false → InCells s q.step result.cell result.step }
{
    if cellwise { q } else { located(s, q) }
}

// A refusal as it is told: by position 22 for 11 where the position is below 0.
fn told(cellwise: bool, r: Refusal, q: CellQuery) -> Refusal
    ensures { (number_of result.reason ≡ number_by cellwise (place_at q.cell) (place_at q.step) (number_of r.reason) r.place) × (result.place ≡ r.place) }
{
    if cellwise {
        return r;
    }
    let place = r.place;
    let reason = position_reason(r.reason, place, q.cell, q.step);
    Refusal { reason, place }
}

// The dose or derivative on 256 steps: at the step of the cell, or at the position that stands in the step's place, in two's complement.
fn read_finest(
    t: FullShape,
    records: &[i32],
    q: CellQuery,
    cellwise: bool,
) -> Result<Value, Refusal>
    ensures by_cell { cellwise ≡ true → (outcome_of_reading result ≡ by_cell (finest t.shape t.second_edition) records.now (wanted q.derivative) (place_at q.cell) (place_at q.step)) × Marks result (cell_mark (finest t.shape t.second_edition) records.now (wanted q.derivative) (place_at q.cell) (place_at q.step)) }
    ensures by_position { cellwise ≡ false → (p : List ℤ) → Stand p q.step → (outcome_of_reading result ≡ by_position (finest t.shape t.second_edition) records.now (wanted q.derivative) (position_at p)) × Marks result (position_mark (finest t.shape t.second_edition) records.now (wanted q.derivative) (position_at p)) }
{
    let s = t.shape;
    let there = spot_of(cellwise, s, q);
    if let Err(r) = check_by_axes(s, records.len(), there) {
        return Err(told(cellwise, r, there));
    }
    read_cell(s, t.second_edition, records, there)
}

// Numbers of steps on three axes in steps of 256, or the refusal of the shape.
fn finer_of(t: FullShape, step: [u32; 3]) -> Result<[u32; 3], Refusal>
    ensures { InFinest t step result }
{
    let n = t.shape.axes;
    let f = factor_on(n, t.steps[0], 0);
    let g = factor_on(n, t.steps[1], 1);
    let h = factor_on(n, t.steps[2], 2);
    if f == 0 || g == 0 || h == 0 {
        lattice::check_full(t)?;
    }
    let [x, y, z] = step;
    Ok([scaled(f, x), scaled(g, y), scaled(h, z)])
}

// The dose or derivative, at a step of a cell, or at the position that stands in the step's place, in two's complement.
// Called and not put in, tried: a query on one axis takes 12 per cent longer.
// The flag stays: one body serves both calls, each with its own constant.
#[inline(always)]
fn read(t: FullShape, records: &[i32], q: CellQuery, cellwise: bool) -> Result<Value, Refusal>
    ensures by_cell { cellwise ≡ true → (outcome_of_reading result ≡ by_cell t records.now (wanted q.derivative) (place_at q.cell) (place_at q.step)) × Marks result (cell_mark t records.now (wanted q.derivative) (place_at q.cell) (place_at q.step)) }
    ensures by_position { cellwise ≡ false → (p : List ℤ) → Stand p q.step → (outcome_of_reading result ≡ by_position t records.now (wanted q.derivative) (position_at p)) × Marks result (position_mark t records.now (wanted q.derivative) (position_at p)) }
{
    let cell = q.cell;
    let derivative = q.derivative;
    let step = if is_finest(t) {
        q.step
    } else {
        finer_of(t, q.step)?
    };
    // Numbers taken one by one are stored once: the array taken whole, tried, takes 14 per cent longer on one axis.
    let [x, y, z] = step;
    let finer = CellQuery {
        cell,
        step: [x, y, z],
        derivative,
    };
    read_finest(t, records, finer, cellwise)
}

// The dose or derivative at a step of a cell.
// Called and not put in, tried: on one axis it takes 38 per cent longer.
#[inline(always)]
pub fn in_cell(t: FullShape, records: &[i32], q: CellQuery) -> Result<Value, Refusal>
    ensures result_value { outcome_of_reading result ≡ by_cell t records.now (wanted q.derivative) (place_at q.cell) (place_at q.step) }
    ensures marks { Marks result (cell_mark t records.now (wanted q.derivative) (place_at q.cell) (place_at q.step)) }
{
    read(t, records, q, true)
}

// The dose or derivative at a position; one below 0 stands in two's complement beyond every table.
// Called and not put in, tried: on one axis it takes a third longer.
#[inline(always)]
pub fn at_position(t: FullShape, records: &[i32], q: Query) -> Result<Value, Refusal>
    ensures result_value { outcome_of_reading result ≡ by_position t records.now (wanted q.derivative) (position_at q.position) }
    ensures marks { Marks result (position_mark t records.now (wanted q.derivative) (position_at q.position)) }
{
    let [x, y, z] = q.position;
    let there = CellQuery {
        cell: [0, 0, 0],
        step: [arith::unsigned(x), arith::unsigned(y), arith::unsigned(z)],
        derivative: q.derivative,
    };
    read(t, records, there, false)
}
