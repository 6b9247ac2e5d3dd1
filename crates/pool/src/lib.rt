// Pooling: two lattices of the same ink, sample by sample, by their weights.
#![tactic(auto)]

ghost use Rattle.std.specs.Prelude.{◌≡◌, ◌+◌, ◌*◌, ◌/◌, ◌≤◌, nat_abs, length};
ghost use Rattle.lattice.specs.Answers.{outcome_of};
ghost use Rattle.lattice.specs.Buffer.{tabulate, overwrite};
ghost use Rattle.lattice.specs.Shape.{Shaped};
ghost use Rattle.lattice.specs.Records.{sample_limit};
ghost use Rattle.pool.specs.Pool.{pooled, pooled_at, shapes_outcome, same_shape, weights_allowed, measurement_of, length_outcome, pool_outcome, pool_writes};
ghost use Rattle.pool.specs.Parts.{Lifted, Weights, Poolable, InTurn};

use lattice::{FullShape, Reason, Refusal};

// Samples are lifted by their limit, so that they are at least 0.
const LIFT: i32 = 32768;

// Weights go up to this number.
const MOST: u32 = 10000;

// A lattice to be pooled: its shape, its samples and its weight.
#[derive(Clone, Copy)]
pub struct Measured<'a> {
    pub shape: FullShape,
    pub samples: &'a [i32],
    pub weight: u32,
}

// A sample, lifted.
fn lifted(a: i32) -> u32
    requires { nat_abs a ≤ sample_limit }
    ensures { Lifted a result }
{
    (a + LIFT).cast_unsigned()
}

// The mean of two numbers to the nearest, halves up.
fn mean(x: u32, v: u32, y: u32, w: u32) -> u32
    requires { (x ≤ 65536) × (y ≤ 65536) × Weights v w }
    ensures { (result ≡ (2 * (x * v + y * w) + (v + w)) / (2 * (v + w))) × (result ≤ 65536) }
{
    let s = v + w;
    (2 * (x * v + y * w) + s) / (2 * s)
}

// Two samples, pooled.
fn pool_two(a: i32, v: u32, b: i32, w: u32) -> i32
    requires { (nat_abs a ≤ sample_limit) × (nat_abs b ≤ sample_limit) × Weights v w }
    ensures { result ≡ pooled a v b w }
{
    mean(lifted(a), v, lifted(b), w).cast_signed() - LIFT
}

// Puts the pooled samples at the front of `out`.
fn fill(a: Measured, b: Measured, out: &mut [i32])
    requires { Poolable a.samples.now a.weight b.samples.now b.weight (length out.old) }
    ensures { out.new ≡ overwrite (tabulate (length a.entry.samples.now) (pooled_at a.entry.samples.now a.entry.weight b.entry.samples.now b.entry.weight)) out.old }
{
    // By index: a proof knows nothing of what was written through a zip's iter_mut.
    for (i, &x) in a.samples.iter().enumerate() {
        let y = b.samples[i];
        out[i] = pool_two(x, a.weight, y, b.weight);
    }
}

fn same_shape(a: FullShape, b: FullShape) -> bool
    ensures { result ≡ same_shape a b }
{
    a == b
}

// At most 10,000, not both 0.
#[tactic(auto, unfolding(crate::specs::Pool::weights_allowed))]
fn weights_allowed(v: u32, w: u32) -> bool
    ensures { result ≡ weights_allowed v w }
{
    v <= MOST && w <= MOST && (0 < v || 0 < w)
}

// A test of the first, then of the second.
fn in_turn<T: Copy, F: Fn(T) -> Result<(), Refusal>>(test: F, a: T, b: T) -> Result<(), Refusal>
    requires { F.pre test a × F.pre test b }
    ensures { InTurn (F.post test a) (F.post test b) result }
{
    test(a)?;
    test(b)
}

// 1, 2, 3 and 26, each of the first shape before the second.
fn check_shapes(a: FullShape, b: FullShape) -> Result<(), Refusal>
    ensures { outcome_of result ≡ shapes_outcome a b }
{
    in_turn(|t: FullShape| lattice::check_axes(t.shape.axes), a, b)?;
    in_turn(|t: FullShape| lattice::check_degree(t.shape.degree), a, b)?;
    in_turn(
        |t: FullShape| lattice::check_counts(t.shape.axes, t.shape.counts),
        a,
        b,
    )?;
    in_turn(
        |t: FullShape| lattice::check_step_numbers(t.shape.axes, t.steps),
        a,
        b,
    )
}

// 4.
fn check_length(a: Measured) -> Result<(), Refusal>
    requires { Shaped a.shape.shape }
    ensures { outcome_of result ≡ length_outcome (measurement_of a.entry) }
{
    let nodes = lattice::node_count(a.shape.shape);
    lattice::refuse_unless(a.samples.len() == nodes, Reason::Length, 0)
}

// All refusals in their order.
fn check_pool(a: Measured, b: Measured, room: usize) -> Result<(), Refusal>
    ensures { outcome_of result ≡ pool_outcome (measurement_of a.entry) (measurement_of b.entry) room }
{
    check_shapes(a.shape, b.shape)?;
    lattice::refuse_unless(same_shape(a.shape, b.shape), Reason::ShapesDiffer, 0)?;
    lattice::refuse_unless(weights_allowed(a.weight, b.weight), Reason::PoolWeights, 0)?;
    in_turn(|m: Measured| check_length(m), a, b)?;
    let nodes = lattice::node_count(a.shape.shape);
    lattice::refuse_unless(nodes <= room, Reason::BufferTooShort, 0)?;
    let limit = lattice::SAMPLE_LIMIT;
    in_turn(
        |m: Measured| lattice::check_within(m.samples, limit, Reason::BeyondLimit),
        a,
        b,
    )
}

// Two lattices, sample by sample, by their weights, to the front of `out`.
pub fn pool(a: Measured, b: Measured, out: &mut [i32]) -> Result<(), Refusal>
    ensures answer { outcome_of result ≡ pool_outcome (measurement_of a.entry) (measurement_of b.entry) (length out.old) }
    ensures written { out.new ≡ pool_writes (measurement_of a.entry) (measurement_of b.entry) out.old }
{
    check_pool(a, b, out.len())?;
    fill(a, b, out);
    Ok(())
}
