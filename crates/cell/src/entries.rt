// The limits of the entries of a record.
ghost use Rattle.std.specs.Prelude.{◌≡◌, ℕ, ◌≤◌, ◌<◌, ◌^◌, pos};
ghost use Rattle.lattice.specs.Buffer.{at};
ghost use Rattle.cell.specs.Cell.{limit_of, Limits};

use lattice::Orders;

// None of the limits is negative.
#[derive(Clone, Copy)]
pub struct EntryLimits {
    pub limits: [i32; 27],
    pub ghost not_negative: { Limits 27 limits },
}

const LIMITS: [[i32; 27]; 2] = [
    [
        32768, 65536, 65536, 131072, 65536, 131072, 131072, 262144, 0, 0, 0, 0, 0, 0, 0, 0, 0, 0,
        0, 0, 0, 0, 0, 0, 0, 0, 0,
    ],
    [
        32768, 65536, 131072, 65536, 131072, 262144, 131072, 262144, 524288, 65536, 131072, 262144,
        131072, 262144, 524288, 262144, 524288, 1048576, 131072, 262144, 524288, 262144, 524288,
        1048576, 524288, 1048576, 2097152,
    ],
];

// The limits of the entries of a record of m orders on each axis.
pub fn entry_limits(m: Orders) -> EntryLimits
    ensures { (e : ℕ) → e < m.count ^ 3 → at result.limits e ≡ pos (limit_of m.count e) }
{
    if m.count == 2 {
        return EntryLimits { limits: LIMITS[0] };
    }
    EntryLimits { limits: LIMITS[1] }
}
