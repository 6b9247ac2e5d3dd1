// The coefficients of a cell, and what both conversions share: places, passes.
#![tactic(auto)]

ghost use Rattle.std.specs.Prelude.{◌≡◌, false, ℕ, ◌+◌, ◌*◌, ◌/◌, ◌%◌, ◌^◌, ◌<◌, ◌≤◌, leb, eqb, nat_abs, ◌*ℤ◌, length, IfOk};
ghost use Rattle.arith.specs.Choice.{pick};
ghost use Rattle.arith.specs.Int.{◌^ℤ◌};
ghost use Rattle.lattice.specs.Outcome.{refuse_unless, first};
ghost use Rattle.lattice.specs.Answers.{outcome_of};
ghost use Rattle.lattice.specs.Buffer.{at};
ghost use Rattle.lattice.specs.Flat.{pass};
ghost use Rattle.lattice.specs.Shape.{orders_of, orders, size, Shaped};
ghost use Rattle.hermite.specs.Hermite.{end_rule};
ghost use Rattle.cell.specs.Cell.{place_at, cell_outcome, corners_outcome, Accepted, Laid};
ghost use Rattle.cell.specs.Coefficients.{coefficient_count};
ghost use Rattle.coefficients.specs.Coefficients.{check_of, request_outcome, coefficients_outcome, coefficients_writes};
ghost use Rattle.coefficients.specs.Blocks.{RowOf, end_sign, block_sign, coefficient_number, coefficient_index, cell_coefficient, solved_block, AllWithin, StartsWith, Placed, scatter, corner_at, Filled, Gathered};

use cell::Layout;
use lattice::{FullShape, Orders, Reason, Refusal, Shape};

mod block;

pub use block::Block;

// Listings 1 to 4 of the source: FullSolve is `filled`, BlockSolve `block_solve`; on axis 0 of a corner b0 is its end,
// s0 = 1 - 2 * b0 its `sign` of order 1, and z0, p0, q0 are the `place` of orders 0, 1, 2; so on each axis.

// s^o of end b, s = 1 - 2b: order 1 of the high end changes its sign.
fn sign(b: usize, o: usize) -> i64
    requires { (b < 2) × (o < 3) }
    ensures { (result ≡ end_sign b ^ℤ o) × (nat_abs result ≡ 1) }
{
    if o == 1 {
        return 1 - 2 * (b as i64);
    }
    1
}

// The coefficient of order o of end b: d * b, (d - 2) * b + 1, (d - 4) * b + 2.
pub fn place(m: usize, b: usize, o: usize) -> usize
    requires { (m ≤ 3) × (b < 2) × (o < m) }
    ensures { (result ≡ coefficient_number m (m * b + o)) × (result < 2 * m) }
{
    (2 * m - 1 - 2 * o) * b + o
}

// The orders along y and z of a row of a block.
#[derive(Clone, Copy)]
pub struct Row {
    pub y: usize,
    pub z: usize,
}

// The row after this one.
pub fn next_row(m: usize, o: Row) -> Row
    requires { (m ≤ 3) × (o.y < m) × (o.z < 3) }
    ensures { RowOf m (m * o.z + o.y + 1) result }
{
    if o.y + 1 < m {
        return Row { y: o.y + 1, z: o.z };
    }
    Row { y: 0, z: o.z + 1 }
}

// The sign of a row of corner c, but for that of the order along x.
fn row_sign(c: usize, o: Row) -> i64
    requires { (c < 8) × (o.y < 3) × (o.z < 3) }
    ensures { (result ≡ end_sign (c / 2 / 2) ^ℤ o.z *ℤ end_sign (c / 2 % 2) ^ℤ o.y) × (nat_abs result ≡ 1) }
{
    sign(c / 2 / 2, o.z) * sign(c / 2 % 2, o.y)
}

// Where a row of corner c stands: its coefficients' places but for their number along x.
pub fn row_place(m: usize, c: usize, o: Row) -> usize
    requires { (2 ≤ m) × (m ≤ 3) × (c < 8) × (o.y < m) × (o.z < m) }
    ensures { (result ≤ 210) × ((t : ℕ) → t < m → coefficient_index m c (m * (m * o.z + o.y) + t) ≡ result + coefficient_number m (m * (c % 2) + t)) }
{
    2 * m * (place(m, c / 2 % 2, o.y) + 2 * m * place(m, c / 2 / 2, o.z))
}

// The places of the coefficients of row g, whose orders are o.
#[inline(always)]
fn place_row(m: Orders, c: usize, g: usize, o: Row, ps: &mut [u8; 27])
    requires { (c < 8) × (m.count * g + m.count ≤ 27) × (o.z < m.count) × RowOf m.count g o × Placed m.count c (m.count * g) ps.old }
    ensures { Placed m.count c (m.count * g + m.count) ps.new }
{
    let p = row_place(m.count, c, o);
    for t in 0..m.count {
        ps[m.count * g + t] = (p + place(m.count, c % 2, t)) as u8;
    }
}

// The places of the coefficients of r rows of corner c.
#[inline(always)]
fn place_rows(m: Orders, r: usize, c: usize, ps: &mut [u8; 27])
    requires { (c < 8) × (m.count * r ≤ 27) × (r ≤ m.count * m.count) }
    ensures { Placed m.count c (m.count * r) ps.new }
{
    let mut o = Row { y: 0, z: 0 };
    for g in 0..r {
        place_row(m, c, g, o, ps);
        o = next_row(m.count, o);
    }
}

// The places of the coefficients of corner c to the front of `ps`, with the degree as a constant.
#[inline(always)]
pub fn put_places(b: Block, c: usize, ps: &mut [u8; 27])
    requires { c < 2 ^ b.axes }
    ensures { Placed b.orders.count c (b.orders.count ^ b.axes) ps.new }
{
    if b.orders.count == 2 {
        place_rows(Orders::cubic(), b.rows, c, ps);
    } else {
        place_rows(Orders::quintic(), b.rows, c, ps);
    }
}

// The same by value. A copy waits for the bytes that were just written, so the conversions lend an array.
#[inline(always)]
pub fn places(b: Block, c: usize) -> [u8; 27]
    requires { c < 2 ^ b.axes }
    ensures { Placed b.orders.count c (b.orders.count ^ b.axes) result }
{
    let mut ps = [0u8; 27];
    put_places(b, c, &mut ps);
    ps
}

// s * x of a sign s.
fn by_sign(s: i64, x: i64) -> i64
    requires { (nat_abs s ≡ 1) × (nat_abs x ≤ 2 ^ 50) }
    ensures { result ≡ s *ℤ x }
{
    if s < 0 {
        return 0 - x;
    }
    x
}

// The numbers of a row from i on, those of even order by s and that of order 1 by t.
fn sign_row(m: Orders, s: i64, t: i64, i: usize, xs: &[i64; 27], zs: &mut [i64; 27])
    requires le_m { (nat_abs s ≡ 1) × (nat_abs t ≡ 1) }
    requires m_bound { (i + m.count ≤ 27) × AllWithin (2 ^ 50) m.count (λ o. at xs.now (i + o)) }
    ensures { zs.new ≡ scatter m.count (λ o. i + o) (λ o. pick (eqb o 1) t s *ℤ at xs.now (i + o)) zs.old }
{
    zs[i] = by_sign(s, xs[i]);
    zs[i + 1] = by_sign(t, xs[i + 1]);
    if m.count == 2 {
        return;
    }
    zs[i + 2] = by_sign(s, xs[i + 2]);
}

// The block of corner c, each number by its sign, row by row.
pub fn signed(b: Block, c: usize, xs: &[i64; 27], zs: &mut [i64; 27])
    requires { (c < 2 ^ b.axes) × AllWithin (2 ^ 50) (b.orders.count ^ b.axes) (at xs.now) }
    ensures { StartsWith (b.orders.count ^ b.axes) (λ k. block_sign b.orders.count c k *ℤ at xs.now k) zs.new }
{
    let x = sign(c % 2, 1);
    let mut o = Row { y: 0, z: 0 };
    for g in 0..b.rows {
        let s = row_sign(c, o);
        sign_row(b.orders, s, s * x, b.orders.count * g, xs, zs);
        o = next_row(b.orders.count, o);
    }
}

// Three numbers from i on; a third order that is not there is 0.
fn group_at(m: Orders, xs: &[i64; 27], i: usize) -> [i64; 3]
    requires { (i + m.count ≤ 27) × AllWithin (2 ^ 50) m.count (λ t. at xs.now (i + t)) }
    ensures { ((t : ℕ) → t < m.count → at result t ≡ at xs.now (i + t)) × AllWithin (2 ^ 50) 3 (at result) }
{
    if m.count == 2 {
        return [xs[i], xs[i + 1], 0];
    }
    [xs[i], xs[i + 1], xs[i + 2]]
}

// The numbers of group g, each to its row of r results.
fn put_group(m: Orders, r: usize, g: usize, z: [i64; 3], zs: &mut [i64; 27])
    requires { (g < r) × (m.count * r ≤ 27) }
    ensures { zs.new ≡ scatter m.count (λ k. r * k + g) (at z) zs.old }
{
    for k in 0..m.count {
        zs[r * k + g] = z[k];
    }
}

// One pass: the fastest axis is converted, group by group, and becomes the slowest.
fn convert_axis(back: bool, m: Orders, r: usize, xs: &[i64; 27], zs: &mut [i64; 27])
    requires { (m.count * r ≤ 27) × AllWithin (2 ^ 50) (m.count * r) (at xs.now) }
    ensures { StartsWith (m.count * r) (pass m.count r (end_rule back m.count) (at xs.now)) zs.new }
{
    for g in 0..r {
        let z = hermite::convert_end(back, m, group_at(m, xs, m.count * g));
        put_group(m, r, g, z, zs);
    }
}

// The same with the degree as a constant.
fn solve_axis(back: bool, m: Orders, r: usize, xs: &[i64; 27], zs: &mut [i64; 27])
    requires { (m.count * r ≤ 27) × AllWithin (2 ^ 50) (m.count * r) (at xs.now) }
    ensures { StartsWith (m.count * r) (pass m.count r (end_rule back m.count) (at xs.now)) zs.new }
{
    if m.count == 2 {
        convert_axis(back, Orders::cubic(), r, xs, zs);
    } else {
        convert_axis(back, Orders::quintic(), r, xs, zs);
    }
}

// The unsigned solve of a block along each axis, forward or back, from `xs` to `zs`.
pub fn solve(back: bool, b: Block, xs: &mut [i64; 27], zs: &mut [i64; 27])
    requires { AllWithin (2 ^ 31) (b.orders.count ^ b.axes) (at xs.old) }
    ensures starts_with { StartsWith (b.orders.count ^ b.axes) (solved_block back b.orders.count b.axes (at xs.old)) zs.new }
    ensures within { AllWithin (2 ^ 50) (b.orders.count ^ b.axes) (at zs.new) }
{
    if b.axes == 2 {
        let mut ws = [0i64; 27];
        solve_axis(back, b.orders, b.rows, xs, &mut ws);
        solve_axis(back, b.orders, b.rows, &ws, zs);
        return;
    }
    solve_axis(back, b.orders, b.rows, xs, zs);
    if b.axes == 1 {
        return;
    }
    solve_axis(back, b.orders, b.rows, zs, xs);
    solve_axis(back, b.orders, b.rows, xs, zs);
}

// (d+1)^n.
pub fn coefficient_count(axes: u32, degree: u32) -> usize
    requires { axes ≤ 3 }
    ensures { (result ≡ coefficient_count (orders_of degree) axes) × (result ≤ 216) }
{
    let both = 2 * lattice::orders(degree).count;
    both.pow(axes)
}

// The numbers of a record's row from i on, those of even order by s and that of order 1 by t; a third order that is not there is 0.
fn row_at(m: Orders, s: i64, t: i64, i: usize, numbers: &[i32]) -> [i64; 3]
    requires { (nat_abs s ≡ 1) × (nat_abs t ≡ 1) × (i + m.count ≤ length numbers.now) }
    ensures { ((o : ℕ) → o < m.count → at result o ≡ pick (eqb o 1) t s *ℤ at numbers.now (i + o)) × AllWithin (2 ^ 31) 3 (at result) }
{
    let f = by_sign(s, numbers[i] as i64);
    let d = by_sign(t, numbers[i + 1] as i64);
    if m.count == 2 {
        return [f, d, 0];
    }
    [f, d, by_sign(s, numbers[i + 2] as i64)]
}

// The pass along x over r rows of the record of corner c: each is signed, and converted.
fn first_axis(m: Orders, r: usize, c: usize, numbers: &[i32], zs: &mut [i64; 27])
    requires { (c < 8) × (m.count * r ≤ 27) × (r ≤ m.count * m.count) × (length numbers.now ≡ m.count * r) }
    ensures starts_with { StartsWith (m.count * r) (pass m.count r (end_rule false m.count) (λ k. block_sign m.count c k *ℤ at numbers.now k)) zs.new }
    ensures all_within { AllWithin (2 ^ 31) (m.count * r) (λ k. block_sign m.count c k *ℤ at numbers.now k) }
{
    let along_x = sign(c % 2, 1);
    let mut o = Row { y: 0, z: 0 };
    for g in 0..r {
        let s = row_sign(c, o);
        let z = hermite::convert_end(false, m, row_at(m, s, s * along_x, m.count * g, numbers));
        put_group(m, r, g, z, zs);
        o = next_row(m.count, o);
    }
}

// The same with the degree as a constant.
fn solve_first(b: Block, c: usize, numbers: &[i32], zs: &mut [i64; 27])
    requires { (c < 2 ^ b.axes) × (length numbers.now ≡ b.orders.count ^ b.axes) }
    ensures starts_with { StartsWith (b.orders.count * b.rows) (pass b.orders.count b.rows (end_rule false b.orders.count) (λ k. block_sign b.orders.count c k *ℤ at numbers.now k)) zs.new }
    ensures all_within { AllWithin (2 ^ 31) (b.orders.count ^ b.axes) (λ k. block_sign b.orders.count c k *ℤ at numbers.now k) }
{
    if b.orders.count == 2 {
        first_axis(Orders::cubic(), b.rows, c, numbers, zs);
    } else {
        first_axis(Orders::quintic(), b.rows, c, numbers, zs);
    }
}

// The record of corner c, signed and solved along each axis, to `zs`.
fn block_solve(b: Block, c: usize, numbers: &[i32], xs: &mut [i64; 27], zs: &mut [i64; 27])
    requires { (c < 2 ^ b.axes) × (length numbers.now ≡ b.orders.count ^ b.axes) }
    ensures { StartsWith (b.orders.count ^ b.axes) (solved_block false b.orders.count b.axes (λ k. block_sign b.orders.count c k *ℤ at numbers.now k)) zs.new }
{
    if b.axes == 2 {
        solve_first(b, c, numbers, xs);
        solve_axis(false, b.orders, b.rows, xs, zs);
        return;
    }
    solve_first(b, c, numbers, zs);
    if b.axes == 1 {
        return;
    }
    solve_axis(false, b.orders, b.rows, zs, xs);
    solve_axis(false, b.orders, b.rows, xs, zs);
}

// The coefficients of corner c, each to its place.
fn store(b: Block, c: usize, zs: &[i64; 27], out: &mut [i32; 216])
    requires { (c < 2 ^ b.axes) × AllWithin (2 ^ 30) (b.orders.count ^ b.axes) (at zs.now) }
    ensures { out.new ≡ scatter (b.orders.count ^ b.axes) (coefficient_index b.orders.count c) (at zs.now) out.old }
{
    let mut ps = [0u8; 27];
    put_places(b, c, &mut ps);
    for (k, &p) in ps[..b.size()].iter().enumerate() {
        out[p as usize] = zs[k] as i32;
    }
}

// The corner whose turn is i, the last used axis innermost.
fn corner_at(n: usize, i: usize) -> usize
    requires { (1 ≤ n) × (n ≤ 3) × (i < 2 ^ n) }
    ensures { (result ≡ corner_at n i) × (result < 2 ^ n) }
{
    if n == 1 {
        return i;
    }
    if n < 3 {
        return i / 2 + 2 * (i % 2);
    }
    i / 4 + (2 * (i / 2 % 2) + 4 * (i % 2))
}

// The coefficients of the first k corners of a cell of n axes in turn, each signed, solved and put to its places; all other numbers 0.
pub fn filled(n: usize, k: usize, l: Layout, records: &[i32]) -> [i32; 216]
    requires { (2 ≤ l.orders) × (l.orders ≤ 3) × (1 ≤ n) × (n ≤ 3) × (k ≤ 2 ^ n) × Gathered l.orders n l records.now }
    ensures { Filled l.orders n (cell_coefficient l.orders n l records.now) k result }
{
    let b = Block::of(Orders { count: l.orders }, n);
    let mut out = [0i32; 216];
    let mut xs = [0i64; 27];
    let mut zs = [0i64; 27];
    for turn in 0..k {
        let c = corner_at(b.axes, turn);
        let start = cell::corner_start(l, c);
        let numbers = &records[start..start + b.size()];
        block_solve(b, c, numbers, &mut xs, &mut zs);
        store(b, c, &zs, &mut out);
    }
    out
}

// 4, 9 and 14.
pub fn check_sizes(s: Shape, given: usize, cell: [u32; 3], room: usize) -> Result<(), Refusal>
    requires { Shaped s }
    ensures { outcome_of result ≡ first (refuse_unless (eqb given (size s)) 4 0) (first (refuse_unless (leb (coefficient_count (orders s) s.axes) room) 9 0) (cell_outcome s (place_at cell))) }
{
    lattice::refuse_unless(given == lattice::table_entries(s), Reason::Length, 0)?;
    let count = coefficient_count(s.axes, s.degree);
    lattice::refuse_unless(count <= room, Reason::BufferTooShort, 0)?;
    cell::check_cell(s.axes, s, cell)
}

// 1, 2, 3, 26, 4, 9, 14.
pub fn check_request(t: FullShape, given: usize, cell: [u32; 3], room: usize) -> Result<(), Refusal>
    ensures { outcome_of result ≡ request_outcome t given (place_at cell) room }
{
    lattice::check_full(t)?;
    check_sizes(t.shape, given, cell, room)
}

// Where the corner records of a cell stand; 5 where one is beyond its limit.
pub fn corners_layout(s: Shape, records: &[i32], cell: [u32; 3]) -> Result<Layout, Refusal>
    requires { Shaped s × (length records.now ≡ size s) × Accepted s (place_at cell) }
    ensures outcome { check_of result ≡ corners_outcome s records.now (place_at cell) }
    ensures layout { IfOk result (λ l. Laid s (place_at cell) l × Gathered l.orders s.axes l records.now) }
{
    let l = cell::layout_of(s, cell);
    cell::check_corners(s, records, cell, l)?;
    Ok(l)
}

// The coefficients of a cell to the front of `out`.
pub fn coefficients(
    t: FullShape,
    records: &[i32],
    cell: [u32; 3],
    out: &mut [i32],
) -> Result<(), Refusal>
    ensures result_value { outcome_of result ≡ coefficients_outcome t records.now (place_at cell) (length out.old) }
    ensures out_after { out.new ≡ coefficients_writes t records.now (place_at cell) out.old }
{
    check_request(t, records.len(), cell, out.len())?;
    let l = corners_layout(t.shape, records, cell)?;
    let n = t.shape.axes as usize;
    let xs = filled(n, 1 << n, l, records);
    let count = coefficient_count(t.shape.axes, t.shape.degree);
    out[..count].copy_from_slice(&xs[..count]);
    Ok(())
}
