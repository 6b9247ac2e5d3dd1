// The calls open to the host: structs of the C interface over the proved calls.
// Each call and each result stands by itself, alike as they are: their signatures and structs are the C interface.
#![tactic(auto)]

pub mod conversion;
pub mod estimation;
pub mod files;
pub mod float_queries;
pub mod integrals;
pub mod keys;
pub mod pooling;
pub mod ramps;
pub mod text;
pub mod whole_queries;

ghost use Rattle.std.specs.Prelude.{◌≡◌};
ghost use Rattle.lattice.specs.Answers.{outcome_of};
ghost use Rattle.lukhtari.specs.Host.{done_of};

use lattice::Refusal;

#[repr(C)]
#[derive(Clone, Copy, Debug, PartialEq)]
pub struct Index {
    pub at: [u32; 3],
}

#[repr(C)]
#[derive(Clone, Copy, Debug, PartialEq)]
pub struct Position {
    pub at: [i32; 3],
}

#[repr(C)]
#[derive(Clone, Copy, Debug, PartialEq)]
pub struct Done {
    pub number: u32,
    pub place: usize,
}

#[repr(C)]
#[derive(Clone, Copy, Debug, PartialEq)]
pub struct Whole {
    pub number: u32,
    pub place: usize,
    pub value: i32,
}

#[repr(C)]
#[derive(Clone, Copy, Debug, PartialEq)]
pub struct Marked {
    pub number: u32,
    pub place: usize,
    pub value: i32,
    pub exact: bool,
}

#[repr(C)]
#[derive(Clone, Copy, Debug, PartialEq)]
pub struct Real {
    pub number: u32,
    pub place: usize,
    pub value: f32,
}

#[repr(C)]
#[derive(Clone, Copy, Debug, PartialEq)]
pub struct Table {
    pub number: u32,
    pub place: usize,
    pub axes: u32,
    pub counts: [u32; 3],
    pub steps: [u32; 3],
    pub second_edition: bool,
}

#[repr(C)]
#[derive(Clone, Copy, Debug, PartialEq)]
pub struct Ramped {
    pub number: u32,
    pub place: usize,
    pub fetches: usize,
}

#[repr(C)]
#[derive(Clone, Copy, Debug, PartialEq)]
pub struct Total {
    pub number: u32,
    pub place: usize,
    pub numerator: i64,
}

#[repr(C)]
#[derive(Clone, Copy, Debug, PartialEq)]
pub struct Written {
    pub number: u32,
    pub place: usize,
    pub length: usize,
}

impl From<Result<(), Refusal>> for Done {
    ghost from_gives = { λ answer done. done ≡ done_of (outcome_of answer) };

    fn from(answer: Result<(), Refusal>) -> Self {
        match answer {
            Ok(()) => Done {
                number: 0,
                place: 0,
            },
            Err(refusal) => Done {
                number: refusal.reason.number(),
                place: refusal.place,
            },
        }
    }
}
