// Reads an input and writes its text to an output.
#![tactic(auto)]

ghost use Rattle.std.specs.Prelude.{◌≤◌, IfOk, length};

use std::io;
use std::io::{Read, Write};

// Reads until `buf` is full or the input ends, and gives how many bytes lie at the front of `buf`.
// By hand, with no heap: `read_to_end` fills a Vec, and `io::copy` does not say how few bytes it copied.
fn read_full<R: Read>(input: &mut R, buf: &mut [u8]) -> io::Result<usize>
    ensures { IfOk result (λ n. n ≤ length buf.new) }
{
    let mut done = 0;
    while done < buf.len() {
        match input.read(&mut buf[done..])? {
            0 => break,
            n => done += n,
        }
    }
    Ok(done)
}

// One byte more than the program holds shows that an input is longer; what comes after it is not read.
pub fn print_doses<R: Read, W: Write>(from: &mut R, to: &mut W) -> io::Result<()> {
    let mut input = [0u8; 4097];
    let length = read_full(from, &mut input)?;
    let mut text = [0u8; 16896];
    let end = report::report(&input[..length], &mut text);
    to.write_all(&text[..end])
}
