// Keys and their rights.
ghost use Rattle.std.specs.Prelude.{◌≡◌};
ghost use Rattle.lattice.specs.Outcome.{refuse_unless};
ghost use Rattle.lattice.specs.Answers.{outcome_of};
ghost use Rattle.lukhtari.specs.Rights.{first_key, holds, key_number, NamesKey};

use lattice::{Reason, Refusal};

// The right to make a call, one for each call of the host.
#[derive(Clone, Copy, Debug, PartialEq, Eq)]
pub enum Right {
    Dose,
    DoseInCell,
    DoseFloat,
    Slope,
    SlopeInCell,
    SlopeFloat,
    Ramp,
    Read,
    Write,
    Import,
    Estimate,
    Pool,
    Coefficients,
    Corners,
    Powers,
    Curvature,
    CurvatureInCell,
    CellTotal,
    BoxTotal,
}

// Who holds a key, with its number.
#[derive(Clone, Copy, Debug, PartialEq, Eq, PartialOrd, Ord)]
pub enum Key {
    Operator = 1,
    Colourist = 2,
    Service = 3,
}

// A number that is no key.
#[derive(Clone, Copy, Debug, PartialEq, Eq)]
pub struct UnknownKey {
    pub number: u32,
}

impl TryFrom<u32> for Key {
    type Error = UnknownKey;

    ghost try_from_gives = { NamesKey };

    fn try_from(number: u32) -> Result<Self, UnknownKey> {
        match number {
            1 => Ok(Key::Operator),
            2 => Ok(Key::Colourist),
            3 => Ok(Key::Service),
            _ => Err(UnknownKey { number }),
        }
    }
}

// The first key that holds a right.
fn first_key(right: Right) -> Key
    ensures { key_number result ≡ first_key right }
{
    match right {
        Right::Dose => Key::Operator,
        Right::DoseInCell => Key::Operator,
        Right::DoseFloat => Key::Operator,
        Right::Slope => Key::Operator,
        Right::SlopeInCell => Key::Operator,
        Right::SlopeFloat => Key::Operator,
        Right::Ramp => Key::Operator,
        Right::Read => Key::Colourist,
        Right::Write => Key::Colourist,
        Right::Import => Key::Colourist,
        Right::Estimate => Key::Colourist,
        Right::Pool => Key::Colourist,
        Right::Coefficients => Key::Service,
        Right::Corners => Key::Service,
        Right::Powers => Key::Service,
        Right::Curvature => Key::Service,
        Right::CurvatureInCell => Key::Service,
        Right::CellTotal => Key::Service,
        Right::BoxTotal => Key::Service,
    }
}

// Whether a key holds a right.
pub fn may(key: u32, right: Right) -> bool
    ensures { result ≡ holds key right }
{
    let first = first_key(right);
    match Key::try_from(key) {
        Ok(key) => first <= key,
        Err(_) => false,
    }
}

// Refusal 30 where a key does not hold a right.
pub fn check(key: u32, right: Right) -> Result<(), Refusal>
    ensures { outcome_of result ≡ refuse_unless (holds key right) 30 0 }
{
    lattice::refuse_unless(may(key, right), Reason::KeyRight, 0)
}
