// The block of a corner: the numbers of its record, row by row.
ghost use Rattle.std.specs.Prelude.{◌≡◌, ◌^◌, ◌≤◌};
ghost use Rattle.coefficients.specs.Blocks.{Sizes};

use lattice::Orders;

// Of m orders on each of n axes: m^n numbers in rows of m along x.
#[derive(Clone, Copy)]
pub struct Block {
    pub orders: Orders,
    pub axes: usize,
    pub rows: usize,
    pub ghost sizes: { Sizes orders.count axes rows },
}

impl Block {
    pub fn of(orders: Orders, axes: usize) -> Self
        requires { (1 ≤ axes) × (axes ≤ 3) }
        ensures { (result.orders.count ≡ orders.count) × (result.axes ≡ axes) }
    {
        let rows = orders.count.pow(axes as u32 - 1);
        Block { orders, axes, rows }
    }

    // m^n.
    pub fn size(self) -> usize
        ensures { (result ≡ self.orders.count ^ self.axes) × (result ≤ 27) }
    {
        self.orders.count * self.rows
    }
}
