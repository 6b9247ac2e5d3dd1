// The table file: reading it into a slice of samples, and writing it into a slice of bytes.
#![tactic(auto)]

ghost use Rattle.std.specs.Prelude.{◌≡◌, [], ◌+◌, ◌*◌, ◌≤◌, length};
ghost use Rattle.std.proofs.lemmas.List.Edits.{sets};
ghost use Rattle.lattice.specs.Outcome.{when_done};
ghost use Rattle.lattice.specs.Answers.{outcome_of};
ghost use Rattle.lattice.specs.Buffer.{overwrite};
ghost use Rattle.lattice.specs.Shape.{shape_of};
ghost use Rattle.table_file.specs.Numbers.{bytes_of, bytes_of_all};
ghost use Rattle.table_file.specs.File.{section_one, section_two, section_three, file_of, file_number, complete, samples_in, read_outcome, write_check, write_outcome};
ghost use Rattle.table_file.specs.Answers.{with_steps, outcome_of_header};
ghost use Rattle.table_file.specs.Parser.{samples_of};

use lattice::{FullShape, Reason, Refusal, Shape, refuse_unless};

mod after_one;
mod section_one;

use after_one::{Rest, sample_of};
use section_one::{check_one, shape_in};

// What a file holds beside the samples. Files do not hold step numbers.
#[derive(Clone, Copy, Debug, PartialEq, Eq)]
pub struct Header {
    pub axes: u32,
    pub counts: [u32; 3],
    pub second_edition: bool,
}

impl Header {
    // The shape of the table of one degree.
    pub fn shape(self, degree: u32) -> Shape
        ensures { result ≡ shape_of self.axes degree self.counts }
    {
        lattice::shape_of(self.axes, degree, self.counts)
    }
}

// Number k of the file.
fn number_at(bytes: &[u8], k: usize) -> u32
    requires { 4 * k + 4 ≤ length bytes.now }
    ensures { result ≡ file_number bytes.now k }
{
    u32::from_le_bytes(bytes.as_chunks().0[k])
}

// 6 where the first `count` numbers are not complete.
fn check_complete(bytes: &[u8], count: usize) -> Result<(), Refusal>
    requires { count ≤ 262151 }
    ensures { outcome_of result ≡ complete bytes.now count }
{
    let length = bytes.len();
    refuse_unless(4 * count <= length, Reason::FileEndsEarly, length)
}

// Puts the samples at the front of `samples`.
fn fill(numbers: &[[u8; 4]], samples: &mut [i32])
    requires { length numbers.now ≤ length samples.old }
    ensures { samples.new ≡ overwrite (samples_of numbers.now) samples.old }
{
    // Tried as a zip over iter_mut: no name then says what the slice holds at the end.
    for (i, &number) in numbers.iter().enumerate() {
        samples[i] = sample_of(number);
    }
}

// Reads a table file: the samples to the front of `samples`.
pub fn read(bytes: &[u8], samples: &mut [i32]) -> Result<Header, Refusal>
    ensures result_value { outcome_of_header result ≡ read_outcome bytes.now (length samples.old) }
    ensures samples_after { samples.new ≡ when_done (read_outcome bytes.now (length samples.old)) (overwrite (samples_in bytes.now) samples.old) samples.old }
{
    check_one(bytes)?;
    let shape = shape_in(bytes);
    let rest = Rest {
        bytes,
        axes: shape.axes as usize,
        nodes: lattice::node_count(shape),
    };
    rest.check(samples.len())?;
    fill(rest.samples(), samples);
    let counts = shape.counts;
    Ok(Header {
        axes: shape.axes,
        counts,
        second_edition: rest.second_in(),
    })
}

// Puts `v` as number k of the file.
fn put_number(bytes: &mut [u8], k: usize, v: u32)
    requires { 4 * k + 4 ≤ length bytes.old }
    ensures { bytes.new ≡ sets bytes.old (4 * k) (bytes_of v) }
{
    bytes[4 * k..4 * k + 4].copy_from_slice(&v.to_le_bytes());
}

// Puts section one.
fn put_one(bytes: &mut [u8], header: Header)
    requires { (header.axes ≤ 3) × (4 * header.axes + 4 ≤ length bytes.old) }
    ensures { bytes.new ≡ sets bytes.old 0 (bytes_of_all (section_one header.axes header.counts)) }
{
    put_number(bytes, 0, header.axes);
    let n = header.axes as usize;
    for (a, &count) in header.counts[..n].iter().enumerate() {
        put_number(bytes, 1 + a, count);
    }
}

// Puts section two from number `start` on.
fn put_two(bytes: &mut [u8], start: usize, samples: &[i32])
    requires { (length samples.now ≤ 262144) × (4 * (1 + start + length samples.now) ≤ length bytes.old) }
    ensures { bytes.new ≡ sets bytes.old (4 * start) (bytes_of_all (section_two samples.now)) }
{
    put_number(bytes, start, samples.len() as u32);
    for (i, &x) in samples.iter().enumerate() {
        put_number(bytes, 1 + start + i, x.cast_unsigned());
    }
}

// How many numbers section three has.
fn three_numbers(second: bool) -> usize
    ensures { (result ≡ length (section_three second)) × (result ≤ 2) }
{
    if second { 2 } else { 0 }
}

// Puts section three from number `start` on, in edition two.
fn put_three(bytes: &mut [u8], start: usize, second: bool)
    requires { 4 * (start + length (section_three second)) ≤ length bytes.old }
    ensures { bytes.new ≡ sets bytes.old (4 * start) (bytes_of_all (section_three second)) }
{
    if second {
        put_number(bytes, start, 1);
        put_number(bytes, 1 + start, 2);
    }
}

// Puts the file of a table at the front of `bytes`, and gives its length.
fn put_file(header: Header, samples: &[i32], bytes: &mut [u8]) -> usize
    requires { (header.axes ≤ 3) × (length samples.now ≤ 262144) × (4 * (2 + header.axes + length samples.now + length (section_three header.second_edition)) ≤ length bytes.old) }
    ensures value { result ≡ length (file_of (with_steps header []) samples.now) }
    ensures bytes_after { bytes.new ≡ overwrite (file_of (with_steps header []) samples.now) bytes.old }
{
    let n = header.axes as usize;
    let start = 2 + n + samples.len();
    put_one(bytes, header);
    put_two(bytes, 1 + n, samples);
    put_three(bytes, start, header.second_edition);
    4 * (start + three_numbers(header.second_edition))
}

// 1, 3, 26, 4, 9, 5. No sample is read before the lengths are right.
fn check_write(header: Header, steps: [u32; 3], samples: &[i32], room: usize) -> Result<(), Refusal>
    ensures { outcome_of result ≡ write_check (with_steps header steps) samples.now room }
{
    // Both degrees have the same nodes.
    let shape = header.shape(3);
    let second_edition = header.second_edition;
    lattice::check_full(FullShape {
        shape,
        steps,
        second_edition,
    })?;
    let nodes = lattice::node_count(shape);
    let three = three_numbers(second_edition);
    let needed = 4 * (2 + header.axes as usize + nodes + three);
    refuse_unless(samples.len() == nodes, Reason::Length, 0)?;
    refuse_unless(needed <= room, Reason::BufferTooShort, 0)?;
    lattice::check_within(samples, lattice::SAMPLE_LIMIT, Reason::BeyondLimit)
}

// Writes a table file to the front of `bytes`.
pub fn write(
    header: Header,
    steps: [u32; 3],
    samples: &[i32],
    bytes: &mut [u8],
) -> Result<usize, Refusal>
    ensures result_value { outcome_of result ≡ write_outcome (with_steps header steps) samples.now (length bytes.old) }
    ensures bytes_after { bytes.new ≡ when_done (write_outcome (with_steps header steps) samples.now (length bytes.old)) (overwrite (file_of (with_steps header steps) samples.now) bytes.old) bytes.old }
{
    check_write(header, steps, samples, bytes.len())?;
    Ok(put_file(header, samples, bytes))
}
