// The table's shape, the refusals, and what every call tests first.
#![tactic(auto)]

ghost use Rattle.std.specs.Prelude.{◌≡◌, [], ◌∷◌, ◌<◌, ltb, get_or, false, ℕ};
ghost use Rattle.arith.specs.Choice.{pick};
ghost use Rattle.lattice.specs.Outcome.{first, on_axes};
ghost use Rattle.lattice.specs.Answers.{number_of, outcome_of, refused_at};
ghost use Rattle.lattice.specs.Shape.{shape_of, count, axes_outcome, degree_outcome, count_allowed, counts_outcome, shape_outcome, step_number, steps_allowed, step_numbers_outcome, full_outcome, finest_on, finest_steps, orders_of, entries, nodes, size, Shaped};
ghost use Rattle.lattice.specs.Records.{limit_outcome};

mod order_count;
mod refusal;

pub use order_count::Orders;
pub use refusal::{Reason, Refusal, refuse_unless};

// Samples lie within this limit.
pub const SAMPLE_LIMIT: u64 = 32768;

// The number of axes, the degree and the node counts: all of a shape that records and coefficients depend on.
#[repr(C)]
#[derive(Clone, Copy, Debug, PartialEq, Eq)]
pub struct Shape {
    pub axes: u32,
    pub degree: u32,
    pub counts: [u32; 3],
}

// A table's shape: its axes, degree and node counts, its step numbers and its edition.
#[repr(C)]
#[derive(Clone, Copy, Debug, PartialEq, Eq)]
pub struct FullShape {
    pub shape: Shape,
    pub steps: [u32; 3],
    pub second_edition: bool,
}

pub fn shape_of(axes: u32, degree: u32, counts: [u32; 3]) -> Shape
    ensures { result ≡ shape_of axes degree counts }
{
    Shape {
        axes: axes,
        degree: degree,
        counts: counts,
    }
}

pub fn check_axes(n: u32) -> Result<(), Refusal>
    ensures { outcome_of result ≡ axes_outcome n }
{
    refuse_unless(1 <= n && n <= 3, Reason::Axes, 0)
}

pub fn check_degree(degree: u32) -> Result<(), Refusal>
    ensures { outcome_of result ≡ degree_outcome degree }
{
    refuse_unless(degree == 3 || degree == 5, Reason::Degree, 0)
}

// The refusal at the first axis that is not allowed.
pub fn check_on_axes(reason: Reason, allowed: [bool; 3]) -> Result<(), Refusal>
    ensures { outcome_of result ≡ on_axes (number_of reason) (λ a. get_or allowed a false) }
{
    refuse_unless(allowed[0], reason, 0)?;
    refuse_unless(allowed[1], reason, 1)?;
    refuse_unless(allowed[2], reason, 2)
}

// One test where an axis is used, another where it is not.
pub fn by_use(n: u32, axis: u32, used: bool, unused: bool) -> bool
    ensures { result ≡ pick (ltb axis n) used unused }
{
    if axis < n { used } else { unused }
}

pub fn count_allowed(n: u32, count: u32, axis: u32) -> bool
    ensures { result ≡ count_allowed n count axis }
{
    by_use(n, axis, 2 <= count && count <= 64, count == 1)
}

// Refusal 3.
pub fn check_counts(n: u32, counts: [u32; 3]) -> Result<(), Refusal>
    ensures { outcome_of result ≡ counts_outcome n (λ a. get_or counts a 0) }
{
    let on_x = count_allowed(n, counts[0], 0);
    let on_y = count_allowed(n, counts[1], 1);
    let on_z = count_allowed(n, counts[2], 2);
    check_on_axes(Reason::NodeCount, [on_x, on_y, on_z])
}

// Refusals 2 and 3 of a shape of n axes.
pub fn check_table(n: u32, s: Shape) -> Result<(), Refusal>
    requires { n ≡ s.axes }
    ensures { outcome_of result ≡ first (degree_outcome s.degree) (counts_outcome s.axes (count s)) }
{
    check_degree(s.degree)?;
    check_counts(n, s.counts)
}

pub fn check_shape(s: Shape) -> Result<(), Refusal>
    ensures { outcome_of result ≡ shape_outcome s }
{
    check_axes(s.axes)?;
    check_table(s.axes, s)
}

// One of the five numbers of steps.
pub fn step_number(steps: u32) -> bool
    ensures { result ≡ step_number steps }
{
    steps == 16 || steps == 32 || steps == 64 || steps == 128 || steps == 256
}

pub fn steps_allowed(n: u32, steps: u32, axis: u32) -> bool
    ensures { result ≡ steps_allowed n steps axis }
{
    by_use(n, axis, step_number(steps), steps == 1)
}

// Refusal 26.
pub fn check_step_numbers(n: u32, steps: [u32; 3]) -> Result<(), Refusal>
    ensures { outcome_of result ≡ step_numbers_outcome n (λ a. get_or steps a 0) }
{
    let on_x = steps_allowed(n, steps[0], 0);
    let on_y = steps_allowed(n, steps[1], 1);
    let on_z = steps_allowed(n, steps[2], 2);
    check_on_axes(Reason::StepNumber, [on_x, on_y, on_z])
}

// Refusals 1, 2, 3 and 26.
pub fn check_full(t: FullShape) -> Result<(), Refusal>
    ensures { outcome_of result ≡ full_outcome t }
{
    check_shape(t.shape)?;
    check_step_numbers(t.shape.axes, t.steps)
}

// The finest step number of an axis of a table of n axes.
pub fn finest_on(n: u32, axis: u32) -> u32
    ensures { result ≡ finest_on n axis }
{
    if axis < n { 256 } else { 1 }
}

pub fn finest_steps(n: u32) -> [u32; 3]
    ensures { result ≡ finest_steps n }
{
    [finest_on(n, 0), finest_on(n, 1), finest_on(n, 2)]
}

// m of a degree.
pub fn orders(degree: u32) -> Orders
    ensures { result.count ≡ orders_of degree }
{
    if degree == 3 {
        Orders::cubic()
    } else {
        Orders::quintic()
    }
}

// m^n, the entries of one record.
pub fn record_entries(s: Shape) -> usize
    requires { Shaped s }
    ensures { result ≡ entries s }
{
    let m = orders(s.degree).count;
    let n = s.axes;
    if n == 1 {
        return m;
    }
    if n == 2 {
        return m * m;
    }
    m * m * m
}

pub fn node_count(s: Shape) -> usize
    requires { Shaped s }
    ensures { result ≡ nodes s }
{
    let x = s.counts[0] as usize;
    let y = s.counts[1] as usize;
    let z = s.counts[2] as usize;
    x * (y * z)
}

// The entries of all records.
pub fn table_entries(s: Shape) -> usize
    requires { Shaped s }
    ensures { result ≡ size s }
{
    node_count(s) * record_entries(s)
}

// The index of the first number beyond `limit`.
pub fn first_beyond(xs: &[i32], limit: u64) -> Option<usize>
    ensures { (number : ℕ) → refused_at number result ≡ limit_outcome number limit xs.now }
{
    for (i, &x) in xs.iter().enumerate() {
        if limit < x.unsigned_abs() as u64 {
            return Some(i);
        }
    }
    None
}

// The refusal at the first number beyond `limit`.
// Called and not put in: where its loop is short of registers, as tried, a table takes 40 per cent longer to write.
#[inline(never)]
pub fn check_within(xs: &[i32], limit: u64, reason: Reason) -> Result<(), Refusal>
    ensures { outcome_of result ≡ limit_outcome (number_of reason) limit xs.now }
{
    match first_beyond(xs, limit) {
        Some(place) => Err(Refusal { reason, place }),
        None => Ok(()),
    }
}
