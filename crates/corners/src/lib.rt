// The corner records of a cell from its coefficients.
#![tactic(auto)]

ghost use Rattle.std.specs.Prelude.{◌≡◌, ℕ, ◌+◌, ◌*◌, ◌^◌, ◌<◌, ◌≤◌, nat_abs, length};
ghost use Rattle.arith.specs.Int.{floor_div};
ghost use Rattle.lattice.specs.Outcome.{done, refuse_unless, first, first_of};
ghost use Rattle.lattice.specs.Answers.{outcome_of};
ghost use Rattle.lattice.specs.Buffer.{at};
ghost use Rattle.cell.specs.Coefficients.{coefficient_count};
ghost use Rattle.corners.specs.Corners.{whole_within, possible_outcome, numbers_outcome, back_outcome, back_writes};
ghost use Rattle.coefficients.specs.Blocks.{AllWithin, scatter};
ghost use Rattle.corners.specs.Back.{Gathers, block_test, entry_of};

use cell::EntryLimits;
use coefficients::Block;
use lattice::{Orders, Reason, Refusal};

// The coefficients of corner c, counted from its ends.
fn gather(b: Block, c: usize, cs: &[i32], xs: &mut [i64; 27])
    requires { (c < 2 ^ b.axes) × (length cs.now ≡ coefficient_count b.orders.count b.axes) }
    ensures { Gathers b.orders.count c (b.orders.count ^ b.axes) cs.now xs.new }
{
    let mut ps = [0u8; 27];
    coefficients::put_places(b, c, &mut ps);
    for (k, &p) in ps[..b.size()].iter().enumerate() {
        xs[k] = cs[p as usize] as i64;
    }
}

// Whether z is whole after halving n times, and then within the limit.
fn whole_within(n: usize, limit: u64, z: i64) -> bool
    requires { n ≤ 3 }
    ensures { result ≡ whole_within n limit z }
{
    let size = z.unsigned_abs();
    let d: u64 = 1 << n;
    size % d == 0 && size / d <= limit
}

// z halved n times; 13 where it is not whole or beyond its limit.
fn entry(n: usize, limit: u64, z: i64) -> Result<i32, Refusal>
    requires { (n ≤ 3) × (limit < 2 ^ 31) × (nat_abs z ≤ 2 ^ 50) }
    ensures { outcome_of result ≡ first (refuse_unless (whole_within n limit z) 13 0) (done (floor_div z (2 ^ n))) }
{
    lattice::refuse_unless(whole_within(n, limit, z), Reason::NoCornerRecords, 0)?;
    Ok((z >> n) as i32)
}

// The entries of corner c to their places; 13 at the first that is not whole or beyond its limit.
fn store(
    b: Block,
    c: usize,
    limits: &EntryLimits,
    zs: &[i64; 27],
    out: &mut [i32; 216],
) -> Result<(), Refusal>
    requires { (c < 2 ^ b.axes) × AllWithin (2 ^ 50) (b.orders.count ^ b.axes) (at zs.now) }
    ensures result_value { outcome_of result ≡ first_of (b.orders.count ^ b.axes) (block_test b.axes limits.now.limits (at zs.now)) }
    ensures out_after { outcome_of result ≡ done tt → out.new ≡ scatter (b.orders.count ^ b.axes) (λ k. b.orders.count ^ b.axes * c + k) (λ k. floor_div (at zs.now k) (2 ^ b.axes)) out.old }
{
    let size = b.size();
    let first = size * c;
    for k in 0..size {
        out[first + k] = entry(b.axes, limits.limits[k] as u64, zs[k])?;
    }
    Ok(())
}

// The corner records, filled corner by corner into the front of `out`; 13 where there are none.
fn corner_records(b: Block, cs: &[i32], out: &mut [i32; 216]) -> Result<(), Refusal>
    requires { length cs.now ≡ coefficient_count b.orders.count b.axes }
    ensures result_value { outcome_of result ≡ possible_outcome b.orders.count b.axes cs.now }
    ensures i_after { outcome_of result ≡ done tt → (i : ℕ) → i < coefficient_count b.orders.count b.axes → at out.new i ≡ entry_of b.orders.count b.axes cs.now i }
{
    let limits = cell::entry_limits(b.orders);
    let corners: usize = 1 << b.axes;
    let mut xs = [0i64; 27];
    let mut zs = [0i64; 27];
    for c in 0..corners {
        gather(b, c, cs, &mut xs);
        coefficients::solve(true, b, &mut xs, &mut zs);
        coefficients::signed(b, c, &zs, &mut xs);
        store(b, c, &limits, &xs, out)?;
    }
    Ok(())
}

// The corner records of a cell of n axes, with the degree as a constant.
fn records_of(m: Orders, n: usize, cs: &[i32], out: &mut [i32; 216]) -> Result<(), Refusal>
    requires { (1 ≤ n) × (n ≤ 3) × (length cs.now ≡ coefficient_count m.count n) }
    ensures result_value { outcome_of result ≡ possible_outcome m.count n cs.now }
    ensures i_after { outcome_of result ≡ done tt → (i : ℕ) → i < coefficient_count m.count n → at out.new i ≡ entry_of m.count n cs.now i }
{
    if m.count == 2 {
        return corner_records(Block::of(Orders::cubic(), n), cs, out);
    }
    corner_records(Block::of(Orders::quintic(), n), cs, out)
}

// 1, 2, 15, 9.
fn check_numbers(axes: u32, degree: u32, given: usize, room: usize) -> Result<(), Refusal>
    ensures { outcome_of result ≡ numbers_outcome axes degree given room }
{
    lattice::check_axes(axes)?;
    lattice::check_degree(degree)?;
    let count = coefficients::coefficient_count(axes, degree);
    lattice::refuse_unless(given == count, Reason::CoefficientCount, 0)?;
    lattice::refuse_unless(count <= room, Reason::BufferTooShort, 0)
}

// The corner records whose coefficients these are, to the front of `out`.
pub fn corners(axes: u32, degree: u32, coefficients: &[i32], out: &mut [i32]) -> Result<(), Refusal>
    ensures result_value { outcome_of result ≡ back_outcome axes degree coefficients.now (length out.old) }
    ensures out_after { out.new ≡ back_writes axes degree coefficients.now out.old }
{
    check_numbers(axes, degree, coefficients.len(), out.len())?;
    let m = lattice::orders(degree);
    let mut xs = [0i32; 216];
    records_of(m, axes as usize, coefficients, &mut xs)?;
    let count = coefficients::coefficient_count(axes, degree);
    out[..count].copy_from_slice(&xs[..count]);
    Ok(())
}
