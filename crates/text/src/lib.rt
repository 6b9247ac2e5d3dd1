// Numbers and lines as text, put into a slice of bytes.
#![tactic(auto)]

ghost use Rattle.std.specs.Prelude.{◌≡◌, ◌+◌, ◌≤◌, length};
ghost use Rattle.std.proofs.lemmas.List.Edits.{sets};
ghost use Rattle.text.specs.Decimal.{decimal, signed_decimal};
ghost use Rattle.text.specs.Lines.{Put, word, indices, cell_line, refused_line};

// Puts the decimal digits of `n` at `at`, and gives the place after them.
// Not by `write!`: its contract says nothing of an error, and no function here can fail.
fn put_number(out: &mut [u8], at: usize, n: u64) -> usize
    requires { at + length (decimal n) ≤ length out.old }
    ensures { Put out.old at (decimal n) out.new result }
{
    if n < 10 {
        out[at] = b'0' + n as u8;
        return at + 1;
    }
    let end = put_number(out, at, n / 10);
    out[end] = b'0' + (n % 10) as u8;
    end + 1
}

// Puts `x` in decimal at `at`, and gives the place after it.
fn put_signed(out: &mut [u8], at: usize, x: i64) -> usize
    requires { at + length (signed_decimal x) ≤ length out.old }
    ensures { Put out.old at (signed_decimal x) out.new result }
{
    let size = x.unsigned_abs();
    if x < 0 {
        out[at] = b'-';
        return put_number(out, at + 1, size);
    }
    put_number(out, at, size)
}

// Puts `bytes` at `at`, and gives the place after them.
fn put_bytes(out: &mut [u8], at: usize, bytes: &[u8]) -> usize
    requires { at + length bytes.now ≤ length out.old }
    ensures { Put out.old at bytes.now out.new result }
{
    let end = at + bytes.len();
    out[at..end].copy_from_slice(bytes);
    end
}

// Puts a number and the byte after it.
fn put_word(out: &mut [u8], at: usize, x: i64, after: u8) -> usize
    requires { at + length (word (signed_decimal x) after) ≤ length out.old }
    ensures { Put out.old at (word (signed_decimal x) after) out.new result }
{
    let end = put_signed(out, at, x);
    out[end] = after;
    end + 1
}

// Puts an unsigned number and the byte after it.
fn put_natural(out: &mut [u8], at: usize, n: u32, after: u8) -> usize
    requires { at + length (word (decimal n) after) ≤ length out.old }
    ensures { Put out.old at (word (decimal n) after) out.new result }
{
    put_word(out, at, i64::from(n), after)
}

// Puts the three indices of a cell, with a space after each.
fn put_indices(out: &mut [u8], at: usize, cell: [u32; 3]) -> usize
    requires { at + length (indices cell) ≤ length out.old }
    ensures { Put out.old at (indices cell) out.new result }
{
    let y = put_natural(out, at, cell[0], b' ');
    let z = put_natural(out, y, cell[1], b' ');
    put_natural(out, z, cell[2], b' ')
}

// Puts a cell's line at `at`, and gives the place after it.
pub fn put_cell_line(out: &mut [u8], at: usize, cell: [u32; 3], cubic: i32, quintic: i32) -> usize
    requires { at + length (cell_line cell cubic quintic) ≤ length out.old }
    ensures value { result ≡ at + length (cell_line cell cubic quintic) }
    ensures out_after { out.new ≡ sets out.old at (cell_line cell cubic quintic) }
{
    let first = put_indices(out, at, cell);
    let second = put_word(out, first, i64::from(cubic), b' ');
    put_word(out, second, i64::from(quintic), b'\n')
}

// Puts the line of a refusal at the front of `out`, and gives its length.
pub fn put_refused_line(out: &mut [u8], number: u32) -> usize
    requires { length (refused_line number) ≤ length out.old }
    ensures value { result ≡ length (refused_line number) }
    ensures out_after { out.new ≡ sets out.old 0 (refused_line number) }
{
    let at = put_bytes(out, 0, b"refused ");
    put_natural(out, at, number, b'\n')
}
