// What comes after section one: the samples, and the edition.
ghost use Rattle.std.specs.Prelude.{◌≡◌, ◌*◌, ◌≤◌, length};
ghost use Rattle.lattice.specs.Answers.{outcome_of};
ghost use Rattle.lattice.specs.Records.{sample_limit, limit_outcome};
ghost use Rattle.table_file.specs.Numbers.{number_at, signed_of};
ghost use Rattle.table_file.specs.File.{start_of_three, second_in, samples_in, two_outcome, three_outcome};
ghost use Rattle.table_file.specs.Parser.{samples_of, rest_outcome, AfterOne};

use crate::{check_complete, number_at};
use lattice::{Reason, Refusal, refuse_unless};

// A file whose section one is not refused.
#[derive(Clone, Copy)]
pub struct Rest<'a> {
    pub bytes: &'a [u8],
    pub axes: usize,
    pub nodes: usize,
    pub ghost known: { AfterOne bytes.now axes nodes },
}

impl<'a> Rest<'a> {
    // How many numbers sections one and two have.
    fn start_of_three(self) -> usize
        ensures { (result ≡ start_of_three self.entry.bytes.now) × (result ≤ 262149) }
    {
        2 + self.axes + self.nodes
    }

    // Section two.
    fn check_two(self) -> Result<(), Refusal>
        ensures { outcome_of result ≡ two_outcome self.entry.bytes.now }
    {
        check_complete(self.bytes, 2 + self.axes)?;
        let count = number_at(self.bytes, 1 + self.axes) as usize;
        refuse_unless(count == self.nodes, Reason::FileSampleCount, 0)?;
        check_complete(self.bytes, self.start_of_three())
    }

    // Whether bytes come after sections one and two.
    pub fn second_in(self) -> bool
        ensures { result ≡ second_in self.entry.bytes.now }
    {
        4 * self.start_of_three() < self.bytes.len()
    }

    // Section three, where there is one.
    fn check_three(self) -> Result<(), Refusal>
        ensures { outcome_of result ≡ three_outcome self.entry.bytes.now }
    {
        if !self.second_in() {
            return Ok(());
        }
        let start = self.start_of_three();
        check_complete(self.bytes, 2 + start)?;
        let count = number_at(self.bytes, start);
        let edition = number_at(self.bytes, 1 + start);
        refuse_unless(count == 1, Reason::FileEdition, 0)?;
        refuse_unless(edition == 2, Reason::FileEdition, 0)?;
        let end = 4 * (2 + start);
        refuse_unless(self.bytes.len() <= end, Reason::FileLeftOver, end)
    }

    // The samples, as they stand in section two.
    pub fn samples(self) -> &'a [[u8; 4]]
        requires { 4 * start_of_three self.bytes.now ≤ length self.bytes.now }
        ensures { samples_of result.now ≡ samples_in self.entry.bytes.now }
    {
        let start = 2 + self.axes;
        &self.bytes.as_chunks().0[start..start + self.nodes]
    }

    // Sections two and three, then 9 and 5.
    pub fn check(self, room: usize) -> Result<(), Refusal>
        ensures { outcome_of result ≡ rest_outcome self.entry.bytes.now room }
    {
        self.check_two()?;
        self.check_three()?;
        refuse_unless(self.nodes <= room, Reason::BufferTooShort, 0)?;
        check_samples(self.samples())
    }
}

// The sample of 4 bytes.
pub fn sample_of(number: [u8; 4]) -> i32
    ensures { result ≡ signed_of (number_at number 0) }
{
    u32::from_le_bytes(number).cast_signed()
}

// Refusal 5 at the first sample that is beyond its limit.
fn check_samples(numbers: &[[u8; 4]]) -> Result<(), Refusal>
    ensures { outcome_of result ≡ limit_outcome 5 sample_limit (samples_of numbers.now) }
{
    for (i, &number) in numbers.iter().enumerate() {
        let size = sample_of(number).unsigned_abs() as u64;
        refuse_unless(size <= lattice::SAMPLE_LIMIT, Reason::BeyondLimit, i)?;
    }
    Ok(())
}
