// The refusals: what is refused, and where.
ghost use Rattle.std.specs.Prelude.{◌≡◌};
ghost use Rattle.lattice.specs.Answers.{number_of, outcome_of};
ghost use Rattle.lattice.specs.Outcome.{refuse_unless};

// What is refused; its number is the one that a host is told.
#[derive(Clone, Copy, Debug, PartialEq, Eq)]
pub enum Reason {
    Axes = 1,
    Degree = 2,
    NodeCount = 3,
    Length = 4,
    BeyondLimit = 5,
    FileEndsEarly = 6,
    FileLeftOver = 7,
    FileSampleCount = 8,
    BufferTooShort = 9,
    NotFinite = 10,
    PositionBeyond = 11,
    SlopeAxis = 12,
    NoCornerRecords = 13,
    CellIndex = 14,
    CoefficientCount = 15,
    TokenTooLong = 16,
    TokenGrammar = 17,
    TokenNotWhole = 18,
    BeyondEstimateLimit = 19,
    RampLength = 20,
    CurvatureDegree = 21,
    PositionBelowZero = 22,
    PositionUnusedAxis = 23,
    PowersShape = 24,
    FileEdition = 25,
    StepNumber = 26,
    ShapesDiffer = 27,
    PoolWeights = 28,
    BoxIndex = 29,
    KeyRight = 30,
}

// A refusal: its reason, and its place, the first offending index.
#[derive(Clone, Copy, Debug, PartialEq, Eq)]
pub struct Refusal {
    pub reason: Reason,
    pub place: usize,
}

impl Reason {
    // Its number.
    pub fn number(self) -> u32
        ensures { result ≡ number_of self }
    {
        self as u32
    }
}

// Passed where `ok` holds, else the refusal.
pub fn refuse_unless(ok: bool, reason: Reason, place: usize) -> Result<(), Refusal>
    ensures { outcome_of result ≡ refuse_unless ok (number_of reason) place }
{
    if ok {
        Ok(())
    } else {
        Err(Refusal { reason, place })
    }
}
