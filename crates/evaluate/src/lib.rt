// The stages of a dose, a slope or a curvature in a cell, straight from the records.
#![tactic(auto)]

ghost use Rattle.std.specs.Prelude.{◌≡◌, true, false, eqb, [], ◌∷◌, ℕ, ◌+◌, ◌*◌, ◌^◌, ◌<◌, ◌≤◌, length, get_or, Bool, ℤ};
ghost use Rattle.lattice.specs.Buffer.{at};
ghost use Rattle.lattice.specs.Records.{records_field};
ghost use Rattle.arith.specs.Choice.{all};
ghost use Rattle.arith.specs.Int.{rounding_of};
ghost use Rattle.hermite.specs.Hermite.{steps};
ghost use Rattle.hermite.specs.Stage.{Smooth, shift_of};
ghost use Rattle.cell.specs.Cell.{place_at};
ghost use Rattle.evaluate.specs.Evaluate.{answer_by, exact_by, ask_at, last_axis};
ghost use Rattle.evaluate.specs.Wants.{wanted};
ghost use Rattle.evaluate.specs.Stages.{IsEnd, AreEnds, AtBoth, Tells, all_at, worked, cleanly, after, clean_after, Reported, place_of, also, strides_of, of_axis, beside, Made, Prepared, AllPrepared, Safe, Workable, WorkedOff, Reports, Ready};

use cell::Layout;
use hermite::{Basis, Ends, Rounded};
use lattice::{Orders, Shape};

// The order of the derivative and its axis; a query for a dose has order 0 and no axis of its own.
#[derive(Clone, Copy)]
pub struct Derivative {
    pub order: u32,
    pub axis: u32,
}

// One axis of a cell: the step in it, and the strides to the next node and to the next order.
#[derive(Clone, Copy)]
pub struct Strides {
    pub step: u32,
    pub node: usize,
    pub order: usize,
}

// The stage of an axis: the shift of its rounding, the basis of its step, and the strides.
#[derive(Clone, Copy)]
pub struct Axis {
    pub shift: u32,
    pub basis: Basis,
    pub node: usize,
    pub order: usize,
}

// The axes in the sequence in which they are worked off; of two there is no middle one.
#[derive(Clone, Copy)]
pub struct Sequence {
    pub first: Strides,
    pub middle: Strides,
    pub last: Strides,
}

// The numbers of one end, and what was dropped of them.
#[derive(Clone, Copy)]
pub struct End {
    pub numbers: [i64; 3],
    pub rest: u64,
}

// A dose or derivative, and whether nothing was dropped of it.
#[derive(Clone, Copy)]
pub struct Value {
    pub number: i32,
    pub exact: bool,
}

// What `f` gives of an edition and m, both constants of each call.
pub fn by_kind<T, F: FnOnce(bool, Orders) -> T>(even: bool, m: Orders, f: F) -> T
    requires { (n : Orders) → n.count ≡ m.count → F.pre f even n }
    ensures { (n : Orders) × (n.count ≡ m.count) × F.post f even n result }
{
    if even {
        if m.count == 2 {
            return f(true, Orders::cubic());
        }
        return f(true, Orders::quintic());
    }
    if m.count == 2 {
        return f(false, Orders::cubic());
    }
    f(false, Orders::quintic())
}

// What `f` gives of the order of a derivative, a constant of each call.
pub fn by_order<T, F: FnOnce(u32) -> T>(order: u32, f: F) -> T
    requires low { order < 3 }
    requires callable { F.pre f order }
    ensures { F.post f order result }
{
    if order == 0 {
        return f(0);
    }
    if order == 1 {
        return f(1);
    }
    f(2)
}

// The stage of an axis whose numbers come and go in units, or in eighths where `from` or `to` is set.
// The two flags stay: they are eighths or units at both ends of a stage, as `shift_of` has them.
pub fn axis_of(m: Orders, derivative: u32, from: bool, to: bool, a: Strides) -> Axis
    requires { Smooth derivative m.count × (a.step ≤ steps) }
    ensures { Made m.count derivative from to a result }
{
    let shift = hermite::shift(derivative, m, from, to);
    let basis = hermite::basis_at(derivative, m, a.step);
    Axis {
        shift,
        basis,
        node: a.node,
        order: a.order,
    }
}

fn entry(records: &[i32], i: usize) -> i64
    requires { i < length records.now }
    ensures { result ≡ at records.now i }
{
    records[i] as i64
}

// The numbers of an end, from the records; here and below `order` and `node` are the strides to the next order and node.
fn end_in(m: Orders, records: &[i32], p: usize, order: usize) -> [i64; 3]
    requires { (o : ℕ) → o < m.count → p + o * order < length records.now }
    ensures { IsEnd m.count (at records.now) p order result }
{
    let a = entry(records, p);
    let b = entry(records, p + order);
    if m.count == 2 {
        return [a, b, 0];
    }
    [a, b, entry(records, p + 2 * order)]
}

// The number after the first stage, from p on; here and below k is the stage's shift, and `even` is set in edition two.
fn first(even: bool, m: Orders, k: u32, x: Axis, records: &[i32], p: usize) -> Rounded
    requires prepared { Prepared m.count x × (k ≤ 44) }
    requires safe { Safe (rounding_of even) m.count (length records.now) (x ∷ []) (at records.now) p }
    ensures { Reported (rounding_of even) m.count k x [] (at records.now) p result }
{
    // A part that starts at p spares the inner sums its addition.
    let here = &records[p..];
    let low = end_in(m, here, 0, x.order);
    let high = end_in(m, here, x.node, x.order);
    let ends = Ends { low, high, rest: 0 };
    hermite::stage(even, m.count, x.basis, k, ends)
}

// The numbers of an end after the first stage.
fn first_end(even: bool, m: Orders, k: u32, x: Axis, records: &[i32], p: usize, order: usize) -> End
    requires prepared { Prepared m.count x × (k ≤ 44) }
    requires by_index { (o : ℕ) → o < m.count → Safe (rounding_of even) m.count (length records.now) (x ∷ []) (at records.now) (p + o * order) }
    ensures end { IsEnd m.count (worked (rounding_of even) k x (at records.now)) p order result.numbers }
    ensures rest_value { eqb result.rest 0 ≡ all m.count (λ o. cleanly m.count k x (at records.now) (λ i. true) (p + o * order)) }
{
    // Written out: by `two_ends`, tried, a dose of degree 5 takes a quarter longer.
    let a = first(even, m, k, x, records, p);
    let b = first(even, m, k, x, records, p + order);
    if m.count == 2 {
        return End {
            numbers: [a.number, b.number, 0],
            rest: b.rest | a.rest,
        };
    }
    let c = first(even, m, k, x, records, p + 2 * order);
    End {
        numbers: [a.number, b.number, c.number],
        rest: c.rest | b.rest | a.rest,
    }
}

// The numbers of two ends after the first stage.
fn first_ends(
    even: bool,
    m: Orders,
    k: u32,
    x: Axis,
    records: &[i32],
    p: usize,
    order: usize,
    node: usize,
) -> Ends
    requires prepared { Prepared m.count x × (k ≤ 44) }
    requires at_both { AtBoth m.count (Safe (rounding_of even) m.count (length records.now) (x ∷ []) (at records.now)) p order node }
    ensures are_ends { AreEnds m.count (worked (rounding_of even) k x (at records.now)) p order node result }
    ensures rest_value { eqb result.rest 0 ≡ all_at m.count (cleanly m.count k x (at records.now) (λ i. true)) p order node }
{
    let low = first_end(even, m, k, x, records, p, order);
    let high = first_end(even, m, k, x, records, p + node, order);
    let from_low = low.numbers;
    let from_high = high.numbers;
    Ends {
        low: from_low,
        high: from_high,
        rest: high.rest | low.rest,
    }
}

// The number after the second stage.
pub fn second(even: bool, m: Orders, k: u32, y: Axis, x: Axis, records: &[i32], p: usize) -> Rounded
    requires all_prepared { AllPrepared m.count (y ∷ x ∷ []) × (k ≤ 44) }
    requires safe { Safe (rounding_of even) m.count (length records.now) (y ∷ x ∷ []) (at records.now) p }
    ensures { Reported (rounding_of even) m.count k y (x ∷ []) (at records.now) p result }
{
    let before = hermite::shift(0, m, false, true);
    let ends = first_ends(even, m, before, x, records, p, y.order, y.node);
    hermite::stage(even, m.count, y.basis, k, ends)
}

// The stages of two axes, m and the edition constants of the call.
fn both_stages(even: bool, m: Orders, z: Axis, x: Axis, records: &[i32], p: usize) -> Rounded
    requires all_prepared { AllPrepared m.count (z ∷ x ∷ []) × (z.shift ≤ 44) }
    requires safe { Safe (rounding_of even) m.count (length records.now) (z ∷ x ∷ []) (at records.now) p }
    ensures { Reported (rounding_of even) m.count z.shift z (x ∷ []) (at records.now) p result }
{
    by_kind(
        even,
        m,
        |even, m| second(even, m, z.shift, z, x, records, p),
    )
}

// The number after the second stage of three.
fn middle(even: bool, m: Orders, y: Axis, x: Axis, records: &[i32], p: usize) -> Rounded
    requires all_prepared { AllPrepared m.count (y ∷ x ∷ []) }
    requires safe { Safe (rounding_of even) m.count (length records.now) (y ∷ x ∷ []) (at records.now) p }
    ensures { Reported (rounding_of even) m.count (shift_of 0 m.count true true) y (x ∷ []) (at records.now) p result }
{
    second(even, m, hermite::shift(0, m, true, true), y, x, records, p)
}

// The same, m and the edition constants of the call.
fn first_stages(even: bool, m: Orders, y: Axis, x: Axis, records: &[i32], p: usize) -> Rounded
    requires all_prepared { AllPrepared m.count (y ∷ x ∷ []) }
    requires safe { Safe (rounding_of even) m.count (length records.now) (y ∷ x ∷ []) (at records.now) p }
    ensures { Reported (rounding_of even) m.count (shift_of 0 m.count true true) y (x ∷ []) (at records.now) p result }
{
    by_kind(even, m, |even, m| middle(even, m, y, x, records, p))
}

// Where number t of two ends stands: those of the low end first.
pub fn place_at(m: usize, order: usize, node: usize, t: usize) -> usize
    requires { (t < 2 * m) × (place_of m order node t < 2 ^ 64) }
    ensures { result ≡ place_of m order node t }
{
    if t < m {
        return t * order;
    }
    node + (t - m) * order
}

// The numbers of two ends, each what `number` gives at its index, and what was dropped of them.
pub fn two_ends<F: Fn(usize) -> Rounded>(
    m: Orders,
    p: usize,
    order: usize,
    node: usize,
    number: F,
) -> Ends
    requires fits { AtBoth m.count (λ i. i < 2 ^ 64) p order node }
    requires callable { AtBoth m.count (F.pre number) p order node }
    ensures { (g : ℕ → ℤ) (c : ℕ → Bool) → AtBoth m.count (Tells (F.post number) g c) p order node → AreEnds m.count g p order node result × (eqb result.rest 0 ≡ all_at m.count c p order node) }
{
    let mut n = [0i64; 6];
    let mut rest: u64 = 0;
    for t in 0..2 * m.count {
        let r = number(p + place_at(m.count, order, node, t));
        n[t] = r.number;
        rest = r.rest | rest;
    }
    if m.count == 2 {
        return Ends {
            low: [n[0], n[1], 0],
            high: [n[2], n[3], 0],
            rest,
        };
    }
    Ends {
        low: [n[0], n[1], n[2]],
        high: [n[3], n[4], n[5]],
        rest,
    }
}

// The number after the third stage.
fn third(even: bool, m: Orders, z: Axis, y: Axis, x: Axis, records: &[i32], p: usize) -> Rounded
    requires all_prepared { AllPrepared m.count (z ∷ y ∷ x ∷ []) × (z.shift ≤ 44) }
    requires safe { Safe (rounding_of even) m.count (length records.now) (z ∷ y ∷ x ∷ []) (at records.now) p }
    ensures { Reported (rounding_of even) m.count z.shift z (y ∷ x ∷ []) (at records.now) p result }
{
    let ends = two_ends(
        m,
        p,
        z.order,
        z.node,
        |i| first_stages(even, m, y, x, records, i),
    );
    hermite::stage(even, m.count, z.basis, z.shift, ends)
}

// The stage of one axis, to units.
pub fn one_axis(even: bool, m: Orders, order: u32, a: Strides, records: &[i32], p: usize) -> Rounded
    requires { Workable (rounding_of even) m.count order a [] (length records.now) (at records.now) p }
    ensures { WorkedOff m.count order a [] (Reports (rounding_of even) m.count (at records.now) p result) }
{
    let x = axis_of(m, order, false, false, a);
    first(even, m, x.shift, x, records, p)
}

// The same, with m and the order constants of the call.
fn one_axis_by_kind(
    even: bool,
    m: Orders,
    order: u32,
    a: Strides,
    records: &[i32],
    p: usize,
) -> Rounded
    requires { Workable (rounding_of even) m.count order a [] (length records.now) (at records.now) p }
    ensures { WorkedOff m.count order a [] (Reports (rounding_of even) m.count (at records.now) p result) }
{
    // Written out: by closures, tried, a dose of one axis takes a fifth longer.
    if m.count == 2 {
        if order == 0 {
            return one_axis(even, Orders::cubic(), 0, a, records, p);
        }
        return one_axis(even, Orders::cubic(), 1, a, records, p);
    }
    if order == 0 {
        return one_axis(even, Orders::quintic(), 0, a, records, p);
    }
    if order == 2 {
        return one_axis(even, Orders::quintic(), 2, a, records, p);
    }
    one_axis(even, Orders::quintic(), 1, a, records, p)
}

// The last stage of more than one, the order a constant of the call.
fn last_stage(m: Orders, order: u32, c: Strides) -> Axis
    requires { Smooth order m.count × (c.step ≤ steps) }
    ensures { Made m.count order true false c result }
{
    by_order(order, |order| axis_of(m, order, true, false, c))
}

// The stages of two or three axes: a, b where there are three, and c.
// The flag stays: two axes are three without the middle one, as `also` says.
fn more_axes(
    even: bool,
    m: Orders,
    three: bool,
    order: u32,
    a: Strides,
    b: Strides,
    c: Strides,
    records: &[i32],
    p: usize,
) -> Rounded
    requires { Workable (rounding_of even) m.count order c (also three b (a ∷ [])) (length records.now) (at records.now) p }
    ensures { WorkedOff m.count order c (also three b (a ∷ [])) (Reports (rounding_of even) m.count (at records.now) p result) }
{
    let x = axis_of(m, 0, false, true, a);
    let z = last_stage(m, order, c);
    if !three {
        return both_stages(even, m, z, x, records, p);
    }
    let y = axis_of(m, 0, true, true, b);
    third(even, m, z, y, x, records, p)
}

// The axis that is worked off last.
fn last_axis(n: u32, derivative: Derivative) -> u32
    requires { 1 ≤ n }
    ensures { result ≡ last_axis n (wanted derivative) }
{
    if derivative.order == 0 {
        n - 1
    } else {
        derivative.axis
    }
}

// Three axes in the sequence of work: x, y, z, but for the last.
fn in_sequence(last: u32, x: Strides, y: Strides, z: Strides) -> Sequence
    requires { last < 3 }
    ensures { (result.first ≡ of_axis x y z (beside 0 last)) × (result.middle ≡ of_axis x y z (beside 2 last)) × (result.last ≡ of_axis x y z last) }
{
    if last == 1 {
        return Sequence {
            first: x,
            middle: z,
            last: y,
        };
    }
    if last == 0 {
        return Sequence {
            first: y,
            middle: z,
            last: x,
        };
    }
    Sequence {
        first: x,
        middle: y,
        last: z,
    }
}

// The step and the strides of an axis.
fn strides_of(m: Orders, step: [u32; 3], l: Layout, axis: u32) -> Strides
    requires { axis < 3 }
    ensures { result ≡ strides_of (get_or step axis 0) (get_or l.strides axis 0) (m.count ^ axis) }
{
    if axis == 0 {
        return Strides {
            step: step[0],
            node: l.strides[0],
            order: 1,
        };
    }
    if axis == 1 {
        return Strides {
            step: step[1],
            node: l.strides[1],
            order: m.count,
        };
    }
    Strides {
        step: step[2],
        node: l.strides[2],
        order: m.count * m.count,
    }
}

// The dose or derivative at a step of a cell of one axis.
pub fn on_line(
    s: Shape,
    even: bool,
    records: &[i32],
    cell: [u32; 3],
    step: [u32; 3],
    derivative: Derivative,
    l: Layout,
) -> Value
    requires ready { Ready s records.now (place_at cell) (place_at step) (wanted derivative) l }
    requires axes_value { s.axes ≡ 1 }
    ensures number_value { result.number ≡ answer_by (rounding_of even) (ask_at s (wanted derivative) (place_at cell) (place_at step)) (records_field s records.now) }
    ensures exact_value { result.exact ≡ exact_by (rounding_of even) (ask_at s (wanted derivative) (place_at cell) (place_at step)) (records_field s records.now) }
{
    let m = Orders { count: l.orders };
    let x = strides_of(m, step, l, 0);
    let r = one_axis_by_kind(even, m, derivative.order, x, records, l.base);
    Value {
        number: r.number as i32,
        exact: r.rest == 0,
    }
}

// The dose or derivative at a step of a cell of two or three axes: the stages x, y, z, a derivative's axis last.
pub fn on_lattice(
    s: Shape,
    even: bool,
    records: &[i32],
    cell: [u32; 3],
    step: [u32; 3],
    derivative: Derivative,
    l: Layout,
) -> Value
    requires ready { Ready s records.now (place_at cell) (place_at step) (wanted derivative) l }
    requires le_axes { 2 ≤ s.axes }
    ensures number_value { result.number ≡ answer_by (rounding_of even) (ask_at s (wanted derivative) (place_at cell) (place_at step)) (records_field s records.now) }
    ensures exact_value { result.exact ≡ exact_by (rounding_of even) (ask_at s (wanted derivative) (place_at cell) (place_at step)) (records_field s records.now) }
{
    let m = Orders { count: l.orders };
    let n = s.axes;
    let last = last_axis(n, derivative);
    let x = strides_of(m, step, l, 0);
    let y = strides_of(m, step, l, 1);
    let z = strides_of(m, step, l, 2);
    let sequence = in_sequence(last, x, y, z);
    let a = sequence.first;
    let b = sequence.middle;
    let c = sequence.last;
    let base = l.base;
    // A part that starts at the cell takes one register.
    let r = more_axes(
        even,
        m,
        n == 3,
        derivative.order,
        a,
        b,
        c,
        &records[base..],
        0,
    );
    Value {
        number: r.number as i32,
        exact: r.rest == 0,
    }
}
