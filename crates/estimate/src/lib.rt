// Estimation: all records of a table from its samples.
#![tactic(auto)]

ghost use Rattle.std.specs.Prelude.{◌≡◌, true, false, ℕ, ◌+◌, ◌*◌, ◌<◌, ◌≤◌, nat_abs, length, take, drop};
ghost use Rattle.lattice.specs.Answers.{outcome_of};
ghost use Rattle.lattice.specs.Buffer.{at, overwrite};
ghost use Rattle.lattice.specs.Records.{limit_outcome};
ghost use Rattle.estimate.specs.Estimate.{by_order, records_of, estimate_limit, estimate_outcome, estimate_writes, Estimable};
ghost use Rattle.estimate.specs.Passes.{pass_limit, placed, before, behind, at_border, lower, upper, pass_of, orders_on, axis_of, grid_of, row_start, row_z, row_yz, row_of, plane_size, plane_of, planes_of, OrderCount, Line, Lines, Rows, Samples, Ring};

use lattice::{FullShape, Reason, Refusal, Shape};

// An axis of a table: its nodes, and the numbers that a record holds along it, 1 along an unused one.
#[derive(Clone, Copy)]
struct Axis {
    count: usize,
    orders: usize,
}

// The axes of a table.
#[derive(Clone, Copy)]
struct Grid {
    x: Axis,
    y: Axis,
    z: Axis,
}

// The node before node i of an axis: the node itself where there is none.
fn node_before(i: usize) -> usize
    ensures { (result ≡ before i) × (result ≤ i) }
{
    i.saturating_sub(1)
}

// The node behind it.
fn node_behind(count: usize, i: usize) -> usize
    requires { i < count }
    ensures { (result ≡ behind count i) × (result < count) }
{
    if i + 1 < count { i + 1 } else { i }
}

// Whether node i is the first or the last.
fn at_border(count: usize, i: usize) -> bool
    requires { i < count }
    ensures { result ≡ at_border count i }
{
    i == 0 || count <= i + 1
}

// The numbers that a record holds along one axis.
fn orders_on(s: Shape, axis: u32) -> usize
    ensures { result ≡ orders_on s axis }
{
    if axis < s.axes {
        lattice::orders(s.degree).count
    } else {
        1
    }
}

fn axis_of(s: Shape, axis: u32) -> Axis
    requires { axis < 3 }
    ensures { result ≡ axis_of s axis }
{
    Axis {
        count: s.counts[axis as usize] as usize,
        orders: orders_on(s, axis),
    }
}

fn grid_of(s: Shape) -> Grid
    ensures { result ≡ grid_of s }
{
    Grid {
        x: axis_of(s, 0),
        y: axis_of(s, 1),
        z: axis_of(s, 2),
    }
}

// The numbers at the nodes before and behind f: at a border, where f stands for the missing one, the line goes on beyond f.
// The flag stays: it is the rule of a border node, as `at_border` tells it.
fn neighbours(border: bool, l: i32, f: i32, r: i32) -> (i32, i32)
    requires { (nat_abs l ≤ pass_limit) × (nat_abs f ≤ pass_limit) × (nat_abs r ≤ pass_limit) }
    ensures value { (result.0 ≡ lower border l f r) × (result.1 ≡ upper border l f r) }
    ensures size { (nat_abs result.0 ≤ 3 * pass_limit) × (nat_abs result.1 ≤ 3 * pass_limit) }
{
    if border {
        let d = r - l;
        (f - d, f + d)
    } else {
        (l, r)
    }
}

// The first M of the value f, D = r − l and S = l − 2f + r.
fn put_orders<const M: usize>(l: i32, f: i32, r: i32, out: &mut [i32])
    requires order_count { OrderCount M × (M ≤ length out.old) }
    requires bounds { (nat_abs l ≤ 3 * pass_limit) × (nat_abs f ≤ pass_limit) × (nat_abs r ≤ 3 * pass_limit) }
    ensures { out.new ≡ placed 0 M (λ o. by_order o l f r) out.old }
{
    out[0] = f;
    if 1 < M {
        out[1] = r - l;
        if 2 < M {
            out[2] = l - 2 * f + r;
        }
    }
}

// The M orders along an axis of the numbers of `mid`, whose neighbours are those of `low` and `high`.
fn pass_with<const M: usize>(border: bool, low: &[i32], mid: &[i32], high: &[i32], out: &mut [i32])
    requires order_count { OrderCount M × (M * length mid.now ≡ length out.old) }
    requires read { Lines low.now mid.now high.now }
    ensures { out.new ≡ placed 0 (M * length mid.now) (pass_of border M (at low.now) (at mid.now) (at high.now)) out.old }
{
    // Parts by index, here and below: a proof knows nothing of what was written through chunks_exact_mut.
    for (i, &f) in mid.iter().enumerate() {
        let (l, r) = neighbours(border, low[i], f, high[i]);
        put_orders::<M>(l, f, r, &mut out[M * i..M * i + M]);
    }
}

// The same with m orders.
fn pass(border: bool, m: usize, low: &[i32], mid: &[i32], high: &[i32], out: &mut [i32])
    requires order_count { OrderCount m × (m * length mid.now ≡ length out.old) }
    requires read { Lines low.now mid.now high.now }
    ensures { out.new ≡ placed 0 (m * length mid.now) (pass_of border m (at low.now) (at mid.now) (at high.now)) out.old }
{
    match m {
        2 => pass_with::<2>(border, low, mid, high, out),
        3 => pass_with::<3>(border, low, mid, high, out),
        _ => pass_with::<1>(border, low, mid, high, out),
    }
}

// Row (y, z) of the samples.
fn samples_row(g: Grid, xs: &[i32], y: usize, z: usize) -> &[i32]
    requires { Samples g xs.now × (y < g.y.count) × (z < g.z.count) }
    ensures { result.now ≡ take g.x.count (drop (row_start g y z) xs.now) }
{
    let start = g.x.count * (y + g.y.count * z);
    &xs[start..start + g.x.count]
}

// One row, worked off along z.
fn row_z(g: Grid, xs: &[i32], y: usize, z: usize, out: &mut [i32])
    requires samples { Samples g xs.now }
    requires y_lt_cy { (y < g.y.count) × (z < g.z.count) × (g.z.orders * g.x.count ≡ length out.old) }
    ensures { out.new ≡ placed 0 (g.z.orders * g.x.count) (row_z g xs.now y z) out.old }
{
    let low = samples_row(g, xs, y, node_before(z));
    let mid = samples_row(g, xs, y, z);
    let high = samples_row(g, xs, y, node_behind(g.z.count, z));
    pass(at_border(g.z.count, z), g.z.orders, low, mid, high, out)
}

// One row of a table of two axes, worked off along y.
fn row_y(g: Grid, xs: &[i32], y: usize, row: &mut [i32])
    requires samples { Samples g xs.now × (y < g.y.count) × (g.z.orders ≡ 1) × (g.z.count ≡ 1) }
    requires room { g.y.orders * (g.z.orders * g.x.count) ≡ length row.old }
    ensures { (t : ℕ) → t < g.y.orders * (g.z.orders * g.x.count) → at row.new t ≡ row_yz g xs.now y 0 t }
{
    let low = samples_row(g, xs, node_before(y), 0);
    let mid = samples_row(g, xs, y, 0);
    let high = samples_row(g, xs, node_behind(g.y.count, y), 0);
    pass(at_border(g.y.count, y), g.y.orders, low, mid, high, row)
}

// One row of a table of three axes, worked off along z and y: made of rows of the ring, to which the row above it is added.
fn row_yz(g: Grid, xs: &[i32], y: usize, z: usize, ring: &mut [i32], row: &mut [i32])
    requires samples { Samples g xs.now × (y < g.y.count) × (z < g.z.count) }
    requires ring_len { (length ring.old ≡ 576) × (g.y.orders * (g.z.orders * g.x.count) ≡ length row.old) × Ring g xs.now y z ring.old }
    ensures ring { (length ring.new ≡ 576) × Ring g xs.now (y + 1) z ring.new }
    ensures by_index { (t : ℕ) → t < g.y.orders * (g.z.orders * g.x.count) → at row.new t ≡ row_yz g xs.now y z t }
{
    let w = g.z.orders * g.x.count;
    let above = node_behind(g.y.count, y);
    let low = w * (node_before(y) % 3);
    let mid = w * (y % 3);
    let high = w * (above % 3);
    row_z(g, xs, above, z, &mut ring[high..high + w]);
    pass(
        at_border(g.y.count, y),
        g.y.orders,
        &ring[low..low + w],
        &ring[mid..mid + w],
        &ring[high..high + w],
        row,
    )
}

// The records of one row, which is worked off along z and y: `size` numbers at each node of the axis.
fn fill_row(x: Axis, size: usize, row: &[i32], out: &mut [i32])
    requires rows { Rows x.orders size x.count × (x.orders * size * x.count ≡ length out.old) }
    requires read { Line (size * x.count) row.now }
    ensures { out.new ≡ placed 0 (x.orders * size * x.count) (row_of x.orders size x.count (at row.now)) out.old }
{
    let m = x.orders;
    let inner = size * (x.count - 2);
    let last = inner + size;
    let p = m * size;
    let q = p + m * inner;
    let first = &row[..size];
    let end = &row[last..];
    pass(true, m, first, first, &row[size..2 * size], &mut out[..p]);
    pass(
        false,
        m,
        &row[..inner],
        &row[size..last],
        &row[2 * size..],
        &mut out[p..q],
    );
    pass(true, m, &row[inner..last], end, end, &mut out[q..])
}

// The records of one plane, row after row. Row v, worked off along z, stands in the ring's slot v % 3.
fn fill_plane(g: Grid, xs: &[i32], z: usize, ring: &mut [i32], row: &mut [i32], out: &mut [i32])
    requires samples { Samples g xs.now × (z < g.z.count) × (plane_size g ≡ length out.old) }
    requires ring_len { (length ring.old ≡ 576) × (g.y.orders * (g.z.orders * g.x.count) ≡ length row.old) }
    ensures { out.new ≡ placed 0 (plane_size g) (plane_of g xs.now z) out.old }
{
    let w = g.z.orders * g.x.count;
    let size = g.y.orders * g.z.orders;
    let step = g.x.orders * size * g.x.count;
    row_z(g, xs, 0, z, &mut ring[..w]);
    for y in 0..g.y.count {
        row_yz(g, xs, y, z, ring, row);
        fill_row(g.x, size, row, &mut out[step * y..step * y + step]);
    }
}

// The records of all planes.
fn fill_planes(g: Grid, xs: &[i32], out: &mut [i32])
    requires { Samples g xs.now × (plane_size g * g.z.count ≡ length out.old) }
    ensures { out.new ≡ placed 0 (plane_size g * g.z.count) (planes_of g xs.now) out.old }
{
    let numbers = g.y.orders * (g.z.orders * g.x.count);
    let step = g.x.orders * (g.y.orders * g.z.orders) * g.x.count * g.y.count;
    let mut ring = [0i32; 576];
    let mut row = [0i32; 576];
    for z in 0..g.z.count {
        let plane = &mut out[step * z..step * z + step];
        fill_plane(g, xs, z, &mut ring, &mut row[..numbers], plane);
    }
}

// The records of a table of two axes, row after row.
fn fill_sheet(g: Grid, xs: &[i32], out: &mut [i32])
    requires { Samples g xs.now × (g.z.orders ≡ 1) × (g.z.count ≡ 1) × (plane_size g ≡ length out.old) }
    ensures { out.new ≡ placed 0 (plane_size g) (plane_of g xs.now 0) out.old }
{
    let size = g.y.orders * g.z.orders;
    let step = g.x.orders * size * g.x.count;
    let mut numbers = [0i32; 192];
    let row = &mut numbers[..size * g.x.count];
    for y in 0..g.y.count {
        row_y(g, xs, y, row);
        fill_row(g.x, size, row, &mut out[step * y..step * y + step]);
    }
}

// All records of a table that estimation takes.
fn fill_records(s: Shape, samples: &[i32], records: &mut [i32])
    requires { Estimable s samples.now (length records.old) }
    ensures { records.new ≡ overwrite (records_of s samples.now) records.old }
{
    let records = &mut records[..lattice::table_entries(s)];
    let g = grid_of(s);
    match s.axes {
        1 => fill_row(g.x, 1, samples, records),
        2 => fill_sheet(g, samples, records),
        _ => fill_planes(g, samples, records),
    }
}

// Samples given for estimation lie within this limit.
fn estimate_limit(n: u32) -> u64
    requires { n ≤ 3 }
    ensures { result ≡ estimate_limit n }
{
    lattice::SAMPLE_LIMIT >> n
}

// The greatest size of a number.
fn largest(xs: &[i32]) -> u32
    ensures { (i : ℕ) → i < length xs.now → nat_abs (at xs.now i) ≤ result }
{
    // No early exit, as of `all`, so that it takes several numbers at a time.
    let mut largest = 0;
    for &x in xs {
        largest = largest.max(x.unsigned_abs());
    }
    largest
}

// Refusal 19, at the first sample beyond the limit.
fn check_samples(xs: &[i32], limit: u64) -> Result<(), Refusal>
    ensures { outcome_of result ≡ limit_outcome 19 limit xs.now }
{
    if largest(xs) as u64 <= limit {
        return Ok(());
    }
    lattice::check_within(xs, limit, Reason::BeyondEstimateLimit)
}

// Every refusal of estimation: 1, 2, 3, 26, then 4, 9, 19. No sample is read before the lengths are right.
pub fn check_estimate(t: FullShape, samples: &[i32], room: usize) -> Result<(), Refusal>
    ensures { outcome_of result ≡ estimate_outcome t samples.now room }
{
    lattice::check_full(t)?;
    let nodes = lattice::node_count(t.shape);
    let entries = lattice::table_entries(t.shape);
    lattice::refuse_unless(samples.len() == nodes, Reason::Length, 0)?;
    lattice::refuse_unless(entries <= room, Reason::BufferTooShort, 0)?;
    check_samples(samples, estimate_limit(t.shape.axes))
}

// Estimation: all records of a table from its samples.
pub fn estimate(t: FullShape, samples: &[i32], records: &mut [i32]) -> Result<(), Refusal>
    ensures answer { outcome_of result ≡ estimate_outcome t samples.now (length records.old) }
    ensures written { records.new ≡ estimate_writes t samples.now records.old }
{
    check_estimate(t, samples, records.len())?;
    fill_records(t.shape, samples, records);
    Ok(())
}
