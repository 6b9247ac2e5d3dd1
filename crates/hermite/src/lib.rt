// One axis: the multiplier table, the basis of a step, and a stage.
#![tactic(auto)]

ghost use Rattle.std.specs.Prelude.{◌≡◌, ℕ, ◌+◌, ◌*◌, ◌-◌, ◌<◌, ◌≤◌, ◌^◌, ◌&&◌, eqb, pos, nat_abs, ◌+ℤ◌, ◌*ℤ◌};
ghost use Rattle.arith.specs.Int.{rounding_of, divides, ◌^ℤ◌};
ghost use Rattle.arith.specs.Sum.{sum, total};
ghost use Rattle.lattice.specs.Buffer.{at};
ghost use Rattle.hermite.specs.Hermite.{steps, multiplier, mirrored, solved, end_rule, weight, basis};
ghost use Rattle.hermite.specs.Stage.{Smooth, RowsOn, Folds, weighted, load, shift_of};

use lattice::Orders;

// The number of steps of a cell on each axis that the stages work on.
pub const STEPS: u32 = 256;

// By degree and order: what each coefficient, counted from an end, takes of that end's numbers.
const MULTIPLIERS: [[i64; 3]; 6] = [
    [2, 0, 0],
    [6, 1, 0],
    [0, 0, 0],
    [2, 0, 0],
    [10, 1, 0],
    [20, 4, 1],
];

// What coefficient k, counted from an end, takes of the numbers of that end.
fn row(m: Orders, k: usize) -> [i64; 3]
    requires { k < 3 }
    ensures { (o : ℕ) → at result o ≡ multiplier m.count k o }
{
    if m.count == 2 {
        return MULTIPLIERS[k];
    }
    MULTIPLIERS[3 + k]
}

// What the coefficients of an end take of its number of order o.
fn column(m: Orders, o: usize) -> [i64; 3]
    requires { o < 3 }
    ensures { (k : ℕ) → k < 3 → at result k ≡ multiplier m.count k o }
{
    [row(m, 0)[o], row(m, 1)[o], row(m, 2)[o]]
}

// The products a^(2m - 2 - k) b^k.
fn products(m: Orders, a: i64, b: i64) -> [i64; 3]
    requires { (nat_abs a ≤ 256) × (nat_abs b ≤ 256) }
    ensures { (k : ℕ) → k < 3 → at result k ≡ a ^ℤ (2 * m.count - 2 - k) *ℤ b ^ℤ k }
{
    let c = a * a;
    let d = a * b;
    if m.count == 2 {
        return [c, d, b * b];
    }
    [c * c, c * d, d * d]
}

// The first three weights of a curvature, in degree 5.
fn curvature_weights(a: i64, b: i64) -> [i64; 3]
    requires { (nat_abs a ≤ 256) × (nat_abs b ≤ 256) }
    ensures { (k : ℕ) → k < 3 → at result k ≡ weight 2 a b 5 k }
{
    let c = a * a;
    let d = a * b;
    by_rows([20, 0, 0], [-8, 12, 0], [2, -12, 6], [a * c, a * d, b * d])
}

// The first three weights of a derivative, of a dose for order 0, a and b being the distances 256 - u and u.
fn weights(order: u32, m: Orders, a: i64, b: i64) -> [i64; 3]
    requires { Smooth order m.count × (nat_abs a ≤ 256) × (nat_abs b ≤ 256) }
    ensures { (k : ℕ) → k < 3 → at result k ≡ weight order a b (2 * m.count - 1) k }
{
    if order == 2 {
        return curvature_weights(a, b);
    }
    let [x, y, z] = products(m, a, b);
    if order == 0 {
        return [a * x, a * y, a * z];
    }
    let d = (2 * m.count - 1) as i64;
    [0 - d * x, x - (d - 1) * y, 2 * y - (d - 2) * z]
}

// The sum of m products of three; for m = 2 the third is 0.
fn dot(m: usize, x: [i64; 3], y: [i64; 3]) -> i64
    requires { (total 3 (λ i. nat_abs (at x i) * nat_abs (at y i)) < 2 ^ 63) × (m ≡ 2 → at y 2 ≡ pos 0) }
    ensures { result ≡ sum 3 (λ i. at x i *ℤ at y i) }
{
    let two = x[0] * y[0] + x[1] * y[1];
    if m == 2 {
        return two;
    }
    two + x[2] * y[2]
}

// Three rows of small factors, each by the same three numbers.
fn by_rows(a: [i64; 3], b: [i64; 3], c: [i64; 3], x: [i64; 3]) -> [i64; 3]
    requires by_index { (o : ℕ) → o < 3 → (nat_abs (at a o) ≤ 20) × (nat_abs (at b o) ≤ 20) × (nat_abs (at c o) ≤ 20) }
    requires by_index_2 { (o : ℕ) → o < 3 → nat_abs (at x o) ≤ 2 ^ 50 }
    ensures { RowsOn (at a) (at b) (at c) (at x) (at result) }
{
    [dot(3, a, x), dot(3, b, x), dot(3, c, x)]
}

// What a stage takes of the numbers of the end at distance b, the other end being at distance a; not yet mirrored.
fn folded(order: u32, m: Orders, a: i64, b: i64) -> [i64; 3]
    requires { Smooth order m.count × (nat_abs a ≤ 256) × (nat_abs b ≤ 256) }
    ensures { (o : ℕ) → o < 3 → at result o ≡ sum 3 (λ k. multiplier m.count k o *ℤ weight order a b (2 * m.count - 1) k) }
{
    let w = weights(order, m, a, b);
    by_rows(column(m, 0), column(m, 1), column(m, 2), w)
}

// The same with m a constant of the call.
fn end_basis(order: u32, m: Orders, a: i64, b: i64) -> [i64; 3]
    requires { Smooth order m.count × (nat_abs a ≤ 256) × (nat_abs b ≤ 256) }
    ensures { (o : ℕ) → o < 3 → at result o ≡ sum 3 (λ k. multiplier m.count k o *ℤ weight order a b (2 * m.count - 1) k) }
{
    if m.count == 2 {
        return folded(order, Orders::cubic(), a, b);
    }
    folded(order, Orders::quintic(), a, b)
}

// Numbers of the high end: order 1 is subtracted, and a derivative of odd order changes its sign.
fn mirror(order: u32, x: [i64; 3]) -> [i64; 3]
    requires { (order < 3) × ((o : ℕ) → o < 3 → nat_abs (at x o) ≤ 2 ^ 62) }
    ensures { (o : ℕ) → o < 3 → at result o ≡ mirrored (o + order) (at x o) }
{
    if order == 1 {
        return [0 - x[0], x[1], 0 - x[2]];
    }
    [x[0], 0 - x[1], x[2]]
}

// What a stage takes of each number of the low and of the high end.
#[derive(Clone, Copy)]
pub struct Basis {
    pub low: [i64; 3],
    pub high: [i64; 3],
}

// What a stage takes of the values of both ends together: 2·256^d for a dose, 0 for a derivative.
fn both_values(order: u32, m: Orders) -> i64
    requires { Smooth order m.count }
    ensures { ((u : ℕ) → u ≤ steps → basis order m.count steps u 0 +ℤ basis order m.count steps u m.count ≡ result) × (nat_abs result ≤ 2 ^ 41) }
{
    if order != 0 {
        return 0;
    }
    if m.count == 2 {
        33554432
    } else {
        2199023255552
    }
}

// The basis of step u: the table folded into the weights; the high end's value has what the low end's leaves of both.
pub fn basis_at(order: u32, m: Orders, u: u32) -> Basis
    requires { Smooth order m.count × (u ≤ steps) }
    ensures { Folds order m.count u result }
{
    let a = (STEPS - u) as i64;
    let b = u as i64;
    let high = mirror(order, end_basis(order, m, b, a));
    let low = end_basis(order, m, a, b);
    Basis {
        low,
        high: [both_values(order, m) - low[0], high[1], high[2]],
    }
}

// The coefficients of the low end, counted from it, from its numbers.
fn end_coefficients(m: Orders, x: [i64; 3]) -> [i64; 3]
    requires { (o : ℕ) → o < 3 → nat_abs (at x o) ≤ 2 ^ 50 }
    ensures { (k : ℕ) → k < 3 → at result k ≡ sum m.count (λ o. multiplier m.count k o *ℤ at x o) }
{
    by_rows(row(m, 0), row(m, 1), row(m, 2), x)
}

// And back: its numbers, doubled.
fn end_numbers(m: Orders, y: [i64; 3]) -> [i64; 3]
    requires { (o : ℕ) → o < 3 → nat_abs (at y o) ≤ 2 ^ 50 }
    ensures { (o : ℕ) → o < 3 → at result o ≡ solved m.count (at y) o }
{
    let b = row(m, 1);
    let c = row(m, 2);
    let f = y[0];
    let d = 2 * y[1] - b[0] * f;
    [f, d, 2 * y[2] - c[0] * f - c[1] * d]
}

// By the rows of the low end: its coefficients from its numbers; or back, its numbers, doubled, from these.
pub fn convert_end(back: bool, m: Orders, x: [i64; 3]) -> [i64; 3]
    requires { (o : ℕ) → o < 3 → nat_abs (at x o) ≤ 2 ^ 50 }
    ensures { (k : ℕ) → k < 3 → at result k ≡ end_rule back m.count (at x) k }
{
    // The flag stays: both ways are one rule, which a table's passes take by it; two passed functions would say no more.
    if back {
        return end_numbers(m, x);
    }
    end_coefficients(m, x)
}

// The numbers of the two ends of a cell along an axis, and what was dropped of them.
#[derive(Clone, Copy)]
pub struct Ends {
    pub low: [i64; 3],
    pub high: [i64; 3],
    pub rest: u64,
}

// The number that a stage gives, and what was dropped of it and of the numbers that it is made of: 0 if nothing was.
#[derive(Clone, Copy)]
pub struct Rounded {
    pub number: i64,
    pub rest: u64,
}

// One stage: the numbers of the two ends, by their basis, rounded by 2^(k+1), halves to even or up.
pub fn stage(even: bool, m: usize, b: Basis, k: u32, ends: Ends) -> Rounded
    requires k_bound { (k ≤ 44) × (load b (at ends.low) (at ends.high) ≤ 2 ^ 63 - 2 ^ 45) }
    requires low_value { m ≡ 2 → (at ends.low 2 ≡ pos 0) × (at ends.high 2 ≡ pos 0) }
    ensures number_value { result.number ≡ rounding_of even (weighted b (at ends.low) (at ends.high)) (2 ^ (k + 1)) }
    ensures rest_value { eqb result.rest 0 ≡ (divides (2 ^ (k + 1)) (weighted b (at ends.low) (at ends.high)) && eqb ends.rest 0) }
{
    let sum = dot(m, b.low, ends.low) + dot(m, b.high, ends.high);
    let rest = arith::dropped(sum, k) | ends.rest;
    let number = arith::rounded(even, sum, k);
    Rounded { number, rest }
}

// The k for which a stage's divisor, 2 times a power of 256, is 2^(k+1).
fn exponent(order: u32, m: Orders) -> u32
    requires { Smooth order m.count }
    ensures { result ≡ 8 * (2 * m.count - 1 - order) }
{
    if m.count == 2 {
        return 24 - 8 * order;
    }
    40 - 8 * order
}

// The k of a stage whose numbers come and go in units, or in eighths where `from` or `to` is set.
pub fn shift(order: u32, m: Orders, from: bool, to: bool) -> u32
    requires { Smooth order m.count }
    ensures { result ≡ shift_of order m.count from to }
{
    let down = if from { 3 } else { 0 };
    let up = if to { 3 } else { 0 };
    exponent(order, m) + down - up
}
