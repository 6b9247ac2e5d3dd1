// Section one: n, then n node counts.
ghost use Rattle.std.specs.Prelude.{◌≡◌, ◌+◌, ◌*◌, ◌≤◌, ◌<◌, length};
ghost use Rattle.lattice.specs.Answers.{outcome_of};
ghost use Rattle.lattice.specs.Outcome.{done, first_of};
ghost use Rattle.table_file.specs.File.{axes_in, count_in, count_outcome, one_outcome};
ghost use Rattle.table_file.specs.Parser.{shape_in};

use crate::{check_complete, number_at};
use lattice::{Reason, Refusal, Shape, check_axes, count_allowed, refuse_unless};

// A file whose number of axes is known.
#[derive(Clone, Copy)]
pub struct SectionOne<'a> {
    pub bytes: &'a [u8],
    pub axes: u32,
    pub ghost known: { (axes ≡ axes_in bytes.now) × (axes ≤ 3) },
}

impl SectionOne<'_> {
    // 6, then 3, for the node count of a used axis.
    fn check_count(self, axis: u32) -> Result<(), Refusal>
        requires { axis < self.axes }
        ensures { outcome_of result ≡ count_outcome self.entry.bytes.now axis }
    {
        let a = axis as usize;
        check_complete(self.bytes, 2 + a)?;
        let count = number_at(self.bytes, 1 + a);
        refuse_unless(count_allowed(self.axes, count, axis), Reason::NodeCount, a)
    }

    // 6 and 3 for the node counts, axis by axis.
    fn check_counts(self) -> Result<(), Refusal>
        ensures { outcome_of result ≡ first_of self.entry.axes (count_outcome self.entry.bytes.now) }
    {
        for axis in 0..self.axes {
            self.check_count(axis)?;
        }
        Ok(())
    }

    // The node count of an axis, 1 on an unused one.
    fn count_in(self, axis: u32) -> u32
        requires { 4 * self.axes + 4 ≤ length self.bytes.now }
        ensures { result ≡ count_in self.entry.bytes.now axis }
    {
        if axis < self.axes {
            number_at(self.bytes, 1 + axis as usize)
        } else {
            1
        }
    }
}

// 6, 1 and 3 of section one.
pub fn check_one(bytes: &[u8]) -> Result<(), Refusal>
    ensures { outcome_of result ≡ one_outcome bytes.now }
{
    check_complete(bytes, 1)?;
    let axes = number_at(bytes, 0);
    check_axes(axes)?;
    SectionOne { bytes, axes }.check_counts()
}

// The shape in section one, of degree 3: both degrees have the same nodes.
pub fn shape_in(bytes: &[u8]) -> Shape
    requires { one_outcome bytes.now ≡ done tt }
    ensures { result ≡ shape_in bytes.now }
{
    let axes = number_at(bytes, 0);
    let one = SectionOne { bytes, axes };
    let x = one.count_in(0);
    let y = one.count_in(1);
    let z = one.count_in(2);
    lattice::shape_of(axes, 3, [x, y, z])
}
