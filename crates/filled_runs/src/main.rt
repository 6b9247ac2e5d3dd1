// The filled array after k corners for every k, of both degrees and one to three axes: a line of degree, axes, k and all 216 numbers.
#![tactic(auto)]

ghost use Rattle.std.specs.Prelude.{◌<◌, ◌≤◌};

use lattice::{FullShape, Shape};
use std::io;

fn less_fifty(r: usize) -> i32
    requires { r < 101 }
{
    r as i32 - 50
}

// Entry i of the corner records is (37 i^2 + 11 i + 5) % 101 - 50.
fn entries() -> [i32; 216] {
    let mut xs = [0i32; 216];
    for i in 0..216 {
        xs[i] = less_fifty((37 * i * i + 11 * i + 5) % 101);
    }
    xs
}

fn print_line<P: Print>(to: &P, s: Shape, k: usize, xs: &[i32; 216]) -> io::Result<()> {
    print!(to; "{} {} {k}:", s.degree, s.axes)?;
    for x in xs {
        print!(to; " {x}")?;
    }
    println!(to; "")
}

// The numbers of k corners of the table of one cell; none where they are refused.
fn numbers(t: FullShape, k: usize, records: &[i32]) -> Option<[i32; 216]> {
    let cell = [0u32; 3];
    let Ok(()) = coefficients::check_request(t, records.len(), cell, 216) else {
        return None;
    };
    let Ok(l) = coefficients::corners_layout(t.shape, records, cell) else {
        return None;
    };
    let n = t.shape.axes as usize;
    if k > 1 << n {
        return None;
    }
    Some(coefficients::filled(n, k, l, records))
}

// The lines of a table of one cell, whose corner records have `size` entries.
fn runs<P: Print>(to: &P, t: FullShape, corners: usize, size: usize) -> io::Result<()>
    requires { (corners ≤ 8) × (size ≤ 216) }
{
    let records = entries();
    for k in 0..=corners {
        if let Some(xs) = numbers(t, k, &records[..size]) {
            print_line(to, t.shape, k, &xs)?;
        }
    }
    Ok(())
}

fn one_cell(axes: u32, degree: u32, y: u32, z: u32) -> FullShape {
    FullShape {
        shape: lattice::shape_of(axes, degree, [2, y, z]),
        steps: lattice::finest_steps(axes),
        second_edition: false,
    }
}

fn main(rt: HostRuntime) -> io::Result<()> {
    runs(&rt, one_cell(1, 3, 1, 1), 2, 4)?;
    runs(&rt, one_cell(2, 3, 2, 1), 4, 16)?;
    runs(&rt, one_cell(3, 3, 2, 2), 8, 64)?;
    runs(&rt, one_cell(1, 5, 1, 1), 2, 6)?;
    runs(&rt, one_cell(2, 5, 2, 1), 4, 36)?;
    runs(&rt, one_cell(3, 5, 2, 2), 8, 216)
}
