// Samples from decimal text: numbers by the grammar of RFC 8259, section 6, in grams per kilogram, with separators between them.
#![tactic(auto)]

ghost use Rattle.std.specs.Prelude.{◌≡◌, true, ◌+◌, ◌-◌, ◌*◌, ◌≤◌, ◌<◌, pos, neg_ℤ, length, take};
ghost use Rattle.arith.specs.Choice.{pick};
ghost use Rattle.lattice.specs.Outcome.{done, first_of};
ghost use Rattle.lattice.specs.Answers.{outcome_of};
ghost use Rattle.lattice.specs.Buffer.{overwrite};
ghost use Rattle.import.specs.Bytes.{leads, skip};
ghost use Rattle.import.specs.Tokens.{token_count};
ghost use Rattle.import.specs.Grammar.{digits, after_digits, number_in, fits_exp, fits_frac, fits_int, fits};
ghost use Rattle.import.specs.Import.{sample_in, token_outcome, sample_outcome, samples_of, import_outcome, import_writes};
ghost use Rattle.import.specs.Parts.{add_digit, add_digits, sum, kept, kept_of, Measured, Taken};

use lattice::{FullShape, Reason, Refusal, refuse_unless};
use scan::{Token, Tokens};

mod scan;

// The longest token that is read.
const LONGEST: usize = 64;

// One more than the largest sample: larger numbers count as this one.
const MOST: u64 = 32769;

// The number of tokens.
fn count_tokens(text: &[u8]) -> usize
    ensures { result ≡ token_count text.now }
{
    Tokens::of(text).count()
}

// Whether the first byte is `x` or `y`.
#[tactic(auto, unfolding(crate::specs::Bytes::leads))]
fn leads_with(bytes: &[u8], x: u8, y: u8) -> bool
    ensures { result ≡ leads x y bytes.now }
{
    match bytes {
        [b, ..] => *b == x || *b == y,
        [] => false,
    }
}

// What follows the first byte where it is `x` or `y`.
#[tactic(auto, unfolding(crate::specs::Bytes::skip, crate::specs::Bytes::leads, arith::specs::Choice::pick))]
fn skipped(bytes: &[u8], x: u8, y: u8) -> &[u8]
    ensures { result.now ≡ skip x y bytes.now }
{
    match bytes {
        [_, rest @ ..] if leads_with(bytes, x, y) => rest,
        _ => bytes,
    }
}

// The number of digits at the front.
fn digit_count(bytes: &[u8]) -> usize
    ensures { result ≡ length (digits bytes.now) }
{
    bytes.iter().take_while(|b| b.is_ascii_digit()).count()
}

// The digits at the front, and what follows them.
fn split_digits(bytes: &[u8]) -> (&[u8], &[u8])
    ensures { (result.0.now ≡ digits bytes.now) × (result.1.now ≡ after_digits bytes.now) }
{
    bytes.split_at(digit_count(bytes))
}

// [ exp ] and nothing more.
fn fits_exp(part: &[u8]) -> bool
    ensures { result ≡ fits_exp part.now }
{
    match part {
        [] => true,
        [_, signed @ ..] if leads_with(part, b'e', b'E') => {
            let (exponent, rest) = split_digits(skipped(signed, b'+', b'-'));
            !exponent.is_empty() && rest.is_empty()
        }
        _ => false,
    }
}

// [ frac ] [ exp ].
#[tactic(auto, unfolding(crate::specs::Grammar::fits_frac))]
fn fits_frac(part: &[u8]) -> bool
    ensures { result ≡ fits_frac part.now }
{
    let (fraction, exp) = split_digits(skipped(part, b'.', b'.'));
    if leads_with(part, b'.', b'.') && fraction.is_empty() {
        return false;
    }
    fits_exp(exp)
}

// Digits of int: some, the first 0 only where it is alone.
#[tactic(auto, unfolding(crate::specs::Grammar::fits_int, crate::specs::Bytes::leads))]
fn fits_int(ds: &[u8]) -> bool
    ensures { result ≡ fits_int ds.now }
{
    !matches!(ds, [] | [b'0', _, ..])
}

// Whether a token fits the grammar.
#[tactic(auto, unfolding(crate::specs::Grammar::fits))]
fn fits_grammar(token: &[u8]) -> bool
    ensures { result ≡ fits token.now }
{
    let (int, rest) = split_digits(skipped(token, b'-', b'-'));
    fits_int(int) && fits_frac(rest)
}

// Digits summed up: the number of those taken, at most MOST; how many are left to take; whether all after them are 0.
#[derive(Clone, Copy)]
struct Sum {
    value: u32,
    left: usize,
    whole: bool,
}

impl Sum {
    // Of no digit, where `left` are to be taken.
    fn of(left: usize) -> Self
        ensures { result ≡ sum 0 left true }
    {
        Sum {
            value: 0,
            left,
            whole: true,
        }
    }

    // One digit more.
    #[tactic(auto, unfolding(crate::specs::Parts::add_digit, crate::specs::Parts::capped, arith::specs::Choice::pick))]
    fn add_digit(self, b: u8) -> Self
        ensures { result ≡ add_digit self b }
    {
        let d = b.saturating_sub(b'0') as u64;
        if self.left == 0 {
            Sum {
                whole: self.whole && d == 0,
                ..self
            }
        } else {
            Sum {
                value: (10 * self.value as u64 + d).min(MOST) as u32,
                left: self.left - 1,
                ..self
            }
        }
    }

    // All digits of int, of frac or of an exponent.
    fn add_digits(self, ds: &[u8]) -> Self
        ensures { result ≡ add_digits self ds.now }
    {
        ds.iter().fold(self, |sum, b| sum.add_digit(*b))
    }
}

// The digits to take where int has `whole`: two more, and as many more or fewer as the exponent says.
#[tactic(auto, unfolding(crate::specs::Parts::kept, arith::specs::Choice::pick))]
fn moved(whole: usize, lowers: bool, exponent: u32) -> usize
    requires { whole ≤ 64 }
    ensures { result ≡ kept whole lowers exponent }
{
    let plain = whole + 2;
    if lowers {
        plain.saturating_sub(exponent as usize)
    } else {
        plain + exponent as usize
    }
}

// The digits to take of a number whose int has `whole` digits, and whose exp is `part`.
fn digits_kept(whole: usize, part: &[u8]) -> usize
    requires { whole ≤ 64 }
    ensures { result ≡ kept_of whole part.now }
{
    let signed = skipped(part, b'e', b'E');
    let (number, _) = split_digits(skipped(signed, b'+', b'-'));
    let exponent = Sum::of(number.len()).add_digits(number).value;
    moved(whole, leads_with(signed, b'-', b'-'), exponent)
}

// The units of a token's number, at most MOST, and whether they are whole. Five zeros take any digit past MOST that is not 0.
// No option: the pass that fills takes the number alone, where an arm for none would never run.
fn measure(token: &[u8]) -> Sum
    requires { length token.now ≤ 64 }
    ensures { Measured (number_in token.now) result }
{
    let (whole, part) = split_digits(skipped(token, b'-', b'-'));
    let (fraction, exp) = split_digits(skipped(part, b'.', b'.'));
    Sum::of(digits_kept(whole.len(), exp))
        .add_digits(whole)
        .add_digits(fraction)
        .add_digits(b"00000")
}

// 16, 17, 18 and 5 for a token that gives sample k.
fn check_token(token: Token, k: usize) -> Result<(), Refusal>
    ensures { outcome_of result ≡ token_outcome token.entry.bytes.now token.entry.start k }
{
    refuse_unless(
        token.bytes.len() <= LONGEST,
        Reason::TokenTooLong,
        token.start,
    )?;
    refuse_unless(fits_grammar(token.bytes), Reason::TokenGrammar, token.start)?;
    let units = measure(token.bytes);
    refuse_unless(units.whole, Reason::TokenNotWhole, token.start)?;
    refuse_unless(
        units.value as u64 <= lattice::SAMPLE_LIMIT,
        Reason::BeyondLimit,
        k,
    )
}

// All tokens, one after the other.
fn check_tokens(text: &[u8]) -> Result<(), Refusal>
    ensures { outcome_of result ≡ first_of (token_count text.now) (sample_outcome text.now) }
{
    for (k, token) in Tokens::of(text).enumerate() {
        check_token(token, k)?;
    }
    Ok(())
}

// A number of units with its sign.
#[tactic(auto, unfolding(arith::specs::Choice::pick))]
fn signed(size: u32, negative: bool) -> i32
    requires { size ≤ 32768 }
    ensures { result ≡ pick negative (neg_ℤ (pos size)) (pos size) }
{
    let x = size as i32;
    if negative { -x } else { x }
}

// The sample of a token.
fn sample_of(token: &[u8]) -> i32
    requires { Taken token.now }
    ensures { result ≡ sample_in token.now }
{
    signed(measure(token).value, leads_with(token, b'-', b'-'))
}

// Puts the samples of all tokens at the front of `samples`.
fn fill(text: &[u8], samples: &mut [i32])
    requires { (token_count text.now ≤ length samples.old) × (first_of (token_count text.now) (sample_outcome text.now) ≡ done tt) }
    ensures { samples.new ≡ overwrite (samples_of text.now) samples.old }
{
    // By index: a proof knows nothing of what was written through a zip's iter_mut.
    for (k, token) in Tokens::of(text).enumerate() {
        samples[k] = sample_of(token.bytes);
    }
}

// 1, 2, 3, 26, then 4 and 9, then 16, 17, 18 and 5 token by token.
fn check_import(t: FullShape, text: &[u8], room: usize) -> Result<(), Refusal>
    ensures { outcome_of result ≡ import_outcome t text.now room }
{
    lattice::check_full(t)?;
    let nodes = lattice::node_count(t.shape);
    refuse_unless(count_tokens(text) == nodes, Reason::Length, 0)?;
    refuse_unless(nodes <= room, Reason::BufferTooShort, 0)?;
    check_tokens(text)
}

// Reads the numbers of `text`, as many as a table of that shape has nodes, to the front of `samples`.
pub fn import(shape: FullShape, text: &[u8], samples: &mut [i32]) -> Result<(), Refusal>
    ensures answer { outcome_of result ≡ import_outcome shape text.now (length samples.old) }
    ensures written { samples.new ≡ import_writes shape text.now samples.old }
{
    check_import(shape, text, samples.len())?;
    fill(text, samples);
    Ok(())
}
