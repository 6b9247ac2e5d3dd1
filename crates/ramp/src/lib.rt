// Doses along a list of positions: corner records are fetched only where the cell differs from the one before.
#![tactic(auto)]

ghost use Rattle.std.specs.Prelude.{◌≡◌, Bool, true, false, ◌&&◌, [], ◌∷◌, ℕ, ◌+◌, ◌*◌, ◌%◌, ◌<◌, ◌≤◌, leb, eqb, length, get_or, MatchOption};
ghost use Rattle.arith.specs.Int.{rounding_of};
ghost use Rattle.lattice.specs.Outcome.{done, first_of, passed};
ghost use Rattle.lattice.specs.Answers.{outcome_of};
ghost use Rattle.lattice.specs.Buffer.{at};
ghost use Rattle.lattice.specs.Shape.{orders, size, full_outcome, Shaped};
ghost use Rattle.lattice.specs.Axes.{origin};
ghost use Rattle.lattice.specs.Records.{records_field};
ghost use Rattle.cell.specs.Cell.{place_at, corners_outcome, Accepted, limit_in, record_outcome, start_of, CornerRows};
ghost use Rattle.evaluate.specs.Evaluate.{dose, ask_at, answer_by};
ghost use Rattle.evaluate.specs.Stages.{strides_of, after, Workable, WorkedOff, Gives, AllPrepared, Safe, Reported};
ghost use Rattle.hermite.specs.Stage.{shift_of};
ghost use Rattle.query.specs.Parts.{finest};
ghost use Rattle.query.specs.Queries.{position_at};
ghost use Rattle.ramp.specs.Ramp.{queries, own_call, answer_of, differ, list_outcome, queries_outcome, ramp_outcome, ramp_writes};
ghost use Rattle.ramp.specs.Parts.{one, layout_alone, Listed, spot_outcome, Stands, Finer, Copied, Held, Readable, AlongX, AlongY};

use cell::{EntryLimits, Layout};
use evaluate::{Axis, Strides};
use hermite::Rounded;
use lattice::{FullShape, Orders, Reason, Refusal, Shape};

// The cell and the in-cell step of a position.
#[derive(Clone, Copy)]
pub struct Spot {
    pub cell: [u32; 3],
    pub step: [u32; 3],
}

// ---- tests

// Whether so many numbers are the positions of at most 256 queries.
fn is_list(asked: usize) -> bool
    ensures { result ≡ (leb asked 768 && eqb (asked % 3) 0) }
{
    asked <= 768 && asked % 3 == 0
}

// Refusals 1, 2, 3, 26, 20, 4 and 9.
fn check_list(t: FullShape, given: usize, asked: usize, room: usize) -> Result<(), Refusal>
    ensures { outcome_of result ≡ list_outcome t given asked room }
{
    lattice::check_full(t)?;
    lattice::refuse_unless(is_list(asked), Reason::RampLength, 0)?;
    lattice::refuse_unless(given == lattice::table_entries(t.shape), Reason::Length, 0)?;
    lattice::refuse_unless(asked / 3 <= room, Reason::BufferTooShort, 0)
}

// The cell and the in-cell step of a position; here and below every used axis has 256 steps. A number below 0 stands in two's complement
// beyond every table.
fn locate(s: Shape, position: &[i32]) -> Spot
    requires { Shaped s × (length position.now ≡ 3) }
    ensures { (even : Bool) → Stands (finest s even) (position_at position.now) result }
{
    let x = arith::unsigned(position[0]);
    let y = arith::unsigned(position[1]);
    let z = arith::unsigned(position[2]);
    let a = query::cell_of(s.counts[0], x);
    let b = query::cell_of(s.counts[1], y);
    let c = query::cell_of(s.counts[2], z);
    Spot {
        cell: [a, b, c],
        step: [x - 256 * a, y - 256 * b, z - 256 * c],
    }
}

// Refusals 23, 22 and 11 of the cell and the in-cell step of a position.
fn check_spot(s: Shape, spot: Spot) -> Result<(), Refusal>
    ensures { (even : Bool) → outcome_of result ≡ spot_outcome (finest s even) (place_at spot.cell) (place_at spot.step) }
{
    let cell = spot.cell;
    let step = spot.step;
    if let Err(r) = query::check_steps(s.axes, s, step) {
        let place = r.place;
        let reason = query::position_reason(r.reason, place, cell, step);
        return Err(Refusal { reason, place });
    }
    Ok(())
}

// ---- corner records

// Whether the corner records of a cell are to be fetched, those of the cell `before` being held.
fn is_new(before: Option<[u32; 3]>, here: [u32; 3]) -> bool
    ensures { MatchOption before (result ≡ true) (λ c. result ≡ differ (place_at c) (place_at here)) }
{
    match before {
        Some(cell) => cell != here,
        None => true,
    }
}

// Copies a part, number by number: `copy_from_slice` takes memmove here, and the archive needs memcpy and memset alone.
fn copy_part(from: &[i32], to: &mut [i32])
    requires { length to.old ≡ length from.now }
    ensures { to.new ≡ from.now }
{
    for (i, &x) in from.iter().enumerate() {
        to[i] = x;
    }
}

// The corner records, rows of two of e entries each, neighbours along x.
#[inline(always)]
fn copy_rows(e: usize, rows: usize, records: &[i32], l: Layout, held: &mut [i32; 216])
    requires { CornerRows l records.now e rows }
    ensures { Copied l records.now e (2 * e * rows) held.new }
{
    let long = 2 * e;
    for r in 0..rows {
        let start = cell::corner_start(l, 2 * r);
        let first = long * r;
        copy_part(
            &records[start..start + long],
            &mut held[first..first + long],
        );
    }
}

// Where the corner records of a cell stand by themselves, e entries each.
fn layout_alone(m: usize, e: usize) -> Layout
    requires { e ≤ 27 }
    ensures { result ≡ layout_alone m e }
{
    Layout {
        orders: m,
        entries: e,
        base: 0,
        strides: [e, 2 * e, 4 * e],
    }
}

// Copies the corner records, 2·rows of e entries each, and says whether they are within their limits.
#[inline(always)]
fn copy_within(
    limits: &EntryLimits,
    e: usize,
    rows: usize,
    records: &[i32],
    l: Layout,
    held: &mut [i32; 216],
) -> bool
    requires { CornerRows l records.now e rows }
    ensures copied { Copied l records.now e (2 * e * rows) held.new }
    ensures value { result ≡ passed (first_of (2 * rows) (λ c. record_outcome (limit_in limits.now.limits) e records.now (start_of l c))) }
{
    copy_rows(e, rows, records, l, held);
    cell::all_within(&limits.limits, e, rows, held, layout_alone(l.orders, e))
}

// Fetches the corner records of a cell, and says whether they are within their limits; m is a constant of the call.
#[inline(always)]
fn fetch_by(s: Shape, m: Orders, records: &[i32], cell: [u32; 3], held: &mut [i32; 216]) -> bool
    requires { Shaped s × (length records.now ≡ size s) × Accepted s (place_at cell) × (m.count ≡ orders s) }
    ensures held { Held s records.now (place_at cell) held.new }
    ensures value { result ≡ passed (corners_outcome s records.now (place_at cell)) }
{
    let l = cell::layout_of(s, cell);
    let limits = cell::entry_limits(m);
    let n = s.axes;
    if n == 1 {
        return copy_within(&limits, m.count, 1, records, l, held);
    }
    if n == 2 {
        return copy_within(&limits, m.count * m.count, 2, records, l, held);
    }
    copy_within(&limits, m.count * m.count * m.count, 4, records, l, held)
}

// The same in every degree.
fn fetch(s: Shape, records: &[i32], cell: [u32; 3], held: &mut [i32; 216]) -> bool
    requires { Shaped s × (length records.now ≡ size s) × Accepted s (place_at cell) }
    ensures held { Held s records.now (place_at cell) held.new }
    ensures value { result ≡ passed (corners_outcome s records.now (place_at cell)) }
{
    if lattice::orders(s.degree).count == 2 {
        fetch_by(s, Orders::cubic(), records, cell, held)
    } else {
        fetch_by(s, Orders::quintic(), records, cell, held)
    }
}

// Fetches the corner records of a cell where it is new; else they are held already.
// A function of its own, with a flag: within its caller the proof doesn't close, what is held being forgotten where the `if` joins.
fn hold(new: bool, s: Shape, records: &[i32], cell: [u32; 3], held: &mut [i32; 216]) -> bool
    requires shaped { Shaped s × (length records.now ≡ size s) × Accepted s (place_at cell) }
    requires held { new ≡ false → Held s records.now (place_at cell) held.old × (corners_outcome s records.now (place_at cell) ≡ done tt) }
    ensures held_2 { Held s records.now (place_at cell) held.new }
    ensures value { result ≡ passed (corners_outcome s records.now (place_at cell)) }
{
    if !new {
        return true;
    }
    fetch(s, records, cell, held)
}

// The entries of all corner records of a cell.
fn corner_entries(s: Shape) -> usize
    requires { Shaped s }
    ensures { (result ≡ size (one s)) × (result ≤ 216) }
{
    let corners: usize = 1 << s.axes;
    corners * lattice::record_entries(s)
}

// ---- doses

// The stage of the only axis; here and below m is a constant of the calls, and `even` is set in edition two.
fn on_line(even: bool, m: Orders, u: u32, held: &[i32]) -> i64
    requires { Workable (rounding_of even) m.count 0 (strides_of u m.count 1) [] (length held.now) (at held.now) 0 }
    ensures { WorkedOff m.count 0 (strides_of u m.count 1) [] (Gives (rounding_of even) m.count (at held.now) 0 result) }
{
    let x = Strides {
        step: u,
        node: m.count,
        order: 1,
    };
    let r = evaluate::one_axis(even, m, 0, x, held, 0);
    r.number
}

// A stage with its strides as constants of the call.
fn strided(a: Axis, node: usize, order: usize) -> Axis
    requires { (a.node ≡ node) × (a.order ≡ order) }
    ensures { result ≡ a }
{
    Axis {
        shift: a.shift,
        basis: a.basis,
        node,
        order,
    }
}

// The number after the second stage, e being the stride to the next node along x; with e, m and the edition constants of the call.
fn second_by(
    even: bool,
    m: Orders,
    k: u32,
    e: usize,
    y: Axis,
    x: Axis,
    held: &[i32],
    p: usize,
) -> Rounded
    requires all_prepared { AllPrepared m.count (y ∷ x ∷ []) × (k ≤ 44) × (e ≤ 27) }
    requires along_y { (y.node ≡ 2 * e) × (y.order ≡ m.count) }
    requires along_x { (x.node ≡ e) × (x.order ≡ 1) }
    requires safe { Safe (rounding_of even) m.count (length held.now) (y ∷ x ∷ []) (at held.now) p }
    ensures { Reported (rounding_of even) m.count k y (x ∷ []) (at held.now) p result }
{
    let along_y = strided(y, 2 * e, m.count);
    let along_x = strided(x, e, 1);
    evaluate::second(even, m, k, along_y, along_x, held, p)
}

// The stages of two axes in every degree and edition.
fn both_stages(even: bool, m: Orders, y: Axis, x: Axis, held: &[i32]) -> Rounded
    requires all_prepared { AllPrepared m.count (y ∷ x ∷ []) × (y.shift ≤ 44) }
    requires along_y { (y.node ≡ 2 * (m.count * m.count)) × (y.order ≡ m.count) }
    requires along_x { (x.node ≡ m.count * m.count) × (x.order ≡ 1) }
    requires safe { Safe (rounding_of even) m.count (length held.now) (y ∷ x ∷ []) (at held.now) 0 }
    ensures { Reported (rounding_of even) m.count y.shift y (x ∷ []) (at held.now) 0 result }
{
    evaluate::by_kind(
        even,
        m,
        |even, m| second_by(even, m, y.shift, m.count * m.count, y, x, held, 0),
    )
}

// The stages of two axes.
fn on_plane(even: bool, m: Orders, u: u32, v: u32, held: &[i32]) -> i64
    requires { Workable (rounding_of even) m.count 0 (strides_of v (2 * (m.count * m.count)) m.count) (strides_of u (m.count * m.count) 1 ∷ []) (length held.now) (at held.now) 0 }
    ensures { WorkedOff m.count 0 (strides_of v (2 * (m.count * m.count)) m.count) (strides_of u (m.count * m.count) 1 ∷ []) (Gives (rounding_of even) m.count (at held.now) 0 result) }
{
    let e = m.count * m.count;
    let along_y = Strides {
        step: v,
        node: 2 * e,
        order: m.count,
    };
    let along_x = Strides {
        step: u,
        node: e,
        order: 1,
    };
    let y = evaluate::axis_of(m, 0, true, false, along_y);
    let x = evaluate::axis_of(m, 0, false, true, along_x);
    let r = both_stages(even, m, y, x, held);
    r.number
}

// The first two stages of three axes, m and the edition constants of the call.
fn middle_by(even: bool, m: Orders, y: Axis, x: Axis, held: &[i32], p: usize) -> Rounded
    requires all_prepared { AllPrepared m.count (y ∷ x ∷ []) × AlongY m.count y × AlongX m.count x }
    requires safe { Safe (rounding_of even) m.count (length held.now) (y ∷ x ∷ []) (at held.now) p }
    ensures { Reported (rounding_of even) m.count (shift_of 0 m.count true true) y (x ∷ []) (at held.now) p result }
{
    let k = hermite::shift(0, m, true, true);
    second_by(even, m, k, m.count * m.count * m.count, y, x, held, p)
}

// The same in every degree and edition.
fn first_stages(even: bool, m: Orders, y: Axis, x: Axis, held: &[i32], p: usize) -> Rounded
    requires all_prepared { AllPrepared m.count (y ∷ x ∷ []) × AlongY m.count y × AlongX m.count x }
    requires safe { Safe (rounding_of even) m.count (length held.now) (y ∷ x ∷ []) (at held.now) p }
    ensures { Reported (rounding_of even) m.count (shift_of 0 m.count true true) y (x ∷ []) (at held.now) p result }
{
    evaluate::by_kind(even, m, |even, m| middle_by(even, m, y, x, held, p))
}

// The number after the first two stages; a ramp carries no mark, so what was dropped is not kept.
fn unmarked(even: bool, m: Orders, y: Axis, x: Axis, held: &[i32], p: usize) -> Rounded
    requires all_prepared { AllPrepared m.count (y ∷ x ∷ []) × AlongY m.count y × AlongX m.count x }
    requires safe { Safe (rounding_of even) m.count (length held.now) (y ∷ x ∷ []) (at held.now) p }
    ensures { (result.number ≡ after (rounding_of even) m.count (y ∷ x ∷ []) (at held.now) p) × (result.rest ≡ 0) }
{
    let r = first_stages(even, m, y, x, held, p);
    Rounded {
        number: r.number,
        rest: 0,
    }
}

// The stages of three axes.
fn in_space(even: bool, m: Orders, u: u32, v: u32, w: u32, held: &[i32]) -> i64
    requires { Workable (rounding_of even) m.count 0 (strides_of w (4 * (m.count * m.count * m.count)) (m.count * m.count)) (strides_of v (2 * (m.count * m.count * m.count)) m.count ∷ strides_of u (m.count * m.count * m.count) 1 ∷ []) (length held.now) (at held.now) 0 }
    ensures { WorkedOff m.count 0 (strides_of w (4 * (m.count * m.count * m.count)) (m.count * m.count)) (strides_of v (2 * (m.count * m.count * m.count)) m.count ∷ strides_of u (m.count * m.count * m.count) 1 ∷ []) (Gives (rounding_of even) m.count (at held.now) 0 result) }
{
    let e = m.count * m.count * m.count;
    let along_z = Strides {
        step: w,
        node: 4 * e,
        order: m.count * m.count,
    };
    let along_y = Strides {
        step: v,
        node: 2 * e,
        order: m.count,
    };
    let along_x = Strides {
        step: u,
        node: e,
        order: 1,
    };
    let z = evaluate::axis_of(m, 0, true, false, along_z);
    let x = evaluate::axis_of(m, 0, false, true, along_x);
    let y = evaluate::axis_of(m, 0, true, true, along_y);
    let both = evaluate::two_ends(m, 0, z.order, z.node, |p| unmarked(even, m, y, x, held, p));
    let r = hermite::stage(even, m.count, z.basis, z.shift, both);
    r.number
}

// The stages of a dose at a step of a cell, from its corner records alone.
#[inline(always)]
fn stages_by(s: Shape, even: bool, m: Orders, held: &[i32], step: [u32; 3]) -> i64
    requires { Readable s held.now (place_at step) × (m.count ≡ orders s) }
    ensures { result ≡ answer_by (rounding_of even) (ask_at (one s) dose origin (place_at step)) (records_field (one s) held.now) }
{
    let n = s.axes;
    let u = step[0];
    let v = step[1];
    let w = step[2];
    if n == 1 {
        return on_line(even, m, u, held);
    }
    if n == 2 {
        return on_plane(even, m, u, v, held);
    }
    in_space(even, m, u, v, w, held)
}

// The same in every degree.
fn stages_in(s: Shape, even: bool, held: &[i32], step: [u32; 3]) -> i64
    requires { Readable s held.now (place_at step) }
    ensures { result ≡ answer_by (rounding_of even) (ask_at (one s) dose origin (place_at step)) (records_field (one s) held.now) }
{
    if lattice::orders(s.degree).count == 2 {
        stages_by(s, even, Orders::cubic(), held, step)
    } else {
        stages_by(s, even, Orders::quintic(), held, step)
    }
}

// The dose at a step of a cell, from its corner records alone.
fn dose_in(s: Shape, even: bool, held: &[i32], step: [u32; 3]) -> i32
    requires { Readable s held.now (place_at step) }
    ensures { result ≡ answer_by (rounding_of even) (ask_at (one s) dose origin (place_at step)) (records_field (one s) held.now) }
{
    stages_in(s, even, held, step) as i32
}

// ---- the list

// The numbers of a list of positions in steps of 256, by the factors of three axes.
fn scale_all(factors: [u32; 3], positions: &[i32], finer: &mut [i32; 768])
    requires { (length positions.now ≤ 768) × ((a : ℕ) → a < 3 → get_or factors a 0 ≤ 16) }
    ensures { Finer factors positions.now finer.new }
{
    for (j, &p) in positions.iter().enumerate() {
        finer[j] = query::scaled_position(factors[j % 3], p);
    }
}

// A list of positions, three numbers each, and the table and the records that they are asked of.
#[derive(Clone, Copy)]
struct Listing<'a> {
    table: FullShape,
    records: &'a [i32],
    positions: &'a [i32],
    ghost full: { full_outcome table ≡ done tt },
    ghost listed: { Listed table.shape records.now positions.now },
}

impl Listing<'_> {
    // The answers of all queries, every used axis having 256 steps, to the front of `found`, up to the first that is refused; the fetches.
    fn answer_finest(&self, found: &mut [i32; 256]) -> Result<usize, Refusal>
        ensures result_value { outcome_of result ≡ queries_outcome (finest self.now.table.shape self.now.table.second_edition) self.now.records.now self.now.positions.now }
        ensures by_index { (k : ℕ) → outcome_of result ≡ done k → (i : ℕ) → i < queries self.now.positions.now → at found.new i ≡ answer_of (own_call (finest self.now.table.shape self.now.table.second_edition) self.now.records.now self.now.positions.now i) }
    {
        let s = self.table.shape;
        let even = self.table.second_edition;
        let records = self.records;
        let entries = corner_entries(s);
        let mut held = [0i32; 216];
        let mut cell: Option<[u32; 3]> = None;
        let mut fetches: usize = 0;
        for (i, position) in self.positions.chunks_exact(3).enumerate() {
            let spot = locate(s, position);
            if let Err(r) = check_spot(s, spot) {
                let reason = r.reason;
                return Err(Refusal { reason, place: i });
            }
            let here = spot.cell;
            let new = is_new(cell, here);
            let within = hold(new, s, records, here, &mut held);
            lattice::refuse_unless(within, Reason::BeyondLimit, i)?;
            cell = Some(here);
            fetches += new as usize;
            found[i] = dose_in(s, even, &held[..entries], spot.step);
        }
        Ok(fetches)
    }

    // The same at positions scaled to 256 steps.
    fn answer_scaled(&self, found: &mut [i32; 256]) -> Result<usize, Refusal>
        ensures result_value { outcome_of result ≡ queries_outcome self.now.table self.now.records.now self.now.positions.now }
        ensures by_index { (k : ℕ) → outcome_of result ≡ done k → (i : ℕ) → i < queries self.now.positions.now → at found.new i ≡ answer_of (own_call self.now.table self.now.records.now self.now.positions.now i) }
    {
        let n = self.table.shape.axes;
        let x = query::factor_on(n, self.table.steps[0], 0);
        let y = query::factor_on(n, self.table.steps[1], 1);
        let z = query::factor_on(n, self.table.steps[2], 2);
        let mut finer = [0i32; 768];
        scale_all([x, y, z], self.positions, &mut finer);
        let scaled = Listing {
            table: self.table,
            records: self.records,
            positions: &finer[..self.positions.len()],
        };
        scaled.answer_finest(found)
    }

    // The answers of all queries, as above; positions are scaled where an axis is coarser.
    fn answer(&self, found: &mut [i32; 256]) -> Result<usize, Refusal>
        ensures result_value { outcome_of result ≡ queries_outcome self.now.table self.now.records.now self.now.positions.now }
        ensures by_index { (k : ℕ) → outcome_of result ≡ done k → (i : ℕ) → i < queries self.now.positions.now → at found.new i ≡ answer_of (own_call self.now.table self.now.records.now self.now.positions.now i) }
    {
        if query::is_finest(self.table) {
            self.answer_finest(found)
        } else {
            self.answer_scaled(found)
        }
    }
}

// The doses at the positions of a list, three numbers each, to the front of `answers`; the number of fetches.
pub fn ramp(
    t: FullShape,
    records: &[i32],
    positions: &[i32],
    answers: &mut [i32],
) -> Result<usize, Refusal>
    ensures answer { outcome_of result ≡ ramp_outcome t records.now positions.now (length answers.old) }
    ensures written { answers.new ≡ ramp_writes t records.now positions.now answers.old }
{
    check_list(t, records.len(), positions.len(), answers.len())?;
    let list = Listing {
        table: t,
        records,
        positions,
    };
    let mut found = [0i32; 256];
    let fetches = list.answer(&mut found)?;
    let n = positions.len() / 3;
    answers[..n].copy_from_slice(&found[..n]);
    Ok(fetches)
}
