// m, the numbers that a record holds along one axis.
ghost use Rattle.std.specs.Prelude.{◌≡◌, ◌≤◌};

// 2 in degree 3, 3 in degree 5.
#[derive(Clone, Copy)]
pub struct Orders {
    pub count: usize,
    pub ghost bounds: { (2 ≤ count) × (count ≤ 3) },
}

impl Orders {
    pub fn cubic() -> Self
        ensures { result.count ≡ 2 }
    {
        Orders { count: 2 }
    }

    pub fn quintic() -> Self
        ensures { result.count ≡ 3 }
    {
        Orders { count: 3 }
    }
}
