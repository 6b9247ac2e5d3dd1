// Signed whole numbers: rounding to the nearest, size, and two's complement.
#![tactic(auto)]

ghost use Rattle.std.specs.Prelude.{◌≡◌, ◌+◌, ◌≤◌, ◌<◌, ◌^◌, eqb, nat_abs};
ghost use Rattle.arith.specs.Int.{round_half_up, round_half_even, rounding_of, divides, unsigned_of};

// x / 2^(k+1) to the nearest, halves up.
pub fn half_up(x: i64, k: u32) -> i64
    requires { (k ≤ 61) × (nat_abs x + 2 ^ k < 2 ^ 63) }
    ensures { result ≡ round_half_up x (2 ^ (k + 1)) }
{
    let half: i64 = 1 << k;
    (x + half) >> (k + 1)
}

// x / 2^(k+1) to the nearest, halves to the even number: they go down where the quotient below is even.
fn half_even(x: i64, k: u32) -> i64
    requires { (k ≤ 61) × (nat_abs x + 2 ^ k < 2 ^ 63) }
    ensures { result ≡ round_half_even x (2 ^ (k + 1)) }
{
    let half: i64 = 1 << k;
    let below = x >> (k + 1);
    let odd = below - 2 * (below >> 1);
    (x + (half - (1 - odd))) >> (k + 1)
}

// x / 2^(k+1) to the nearest, halves to the even number where `even` is set, else up.
// The flag stays: it is the edition of a table, a field of a struct of C, and a constant of the inner calls.
pub fn rounded(even: bool, x: i64, k: u32) -> i64
    requires { (k ≤ 61) × (nat_abs x + 2 ^ k < 2 ^ 63) }
    ensures { result ≡ rounding_of even x (2 ^ (k + 1)) }
{
    if even { half_even(x, k) } else { half_up(x, k) }
}

// What a quotient x / 2^(k+1) drops: x less the multiple of 2^(k+1) below it.
pub fn dropped(x: i64, k: u32) -> u64
    requires { (k ≤ 60) × (nat_abs x + 2 ^ (k + 1) ≤ 2 ^ 63) }
    ensures { eqb result 0 ≡ divides (2 ^ (k + 1)) x }
{
    let divisor: i64 = 1 << (k + 1);
    let below = x >> (k + 1);
    (x - divisor * below) as u64
}

// The distance of x from 0.
pub fn magnitude(x: i64) -> u64
    ensures { result ≡ nat_abs x }
{
    x.unsigned_abs()
}

// The number that stands for x in two's complement.
pub fn unsigned(x: i32) -> u32
    ensures { result ≡ unsigned_of x }
{
    x.cast_unsigned()
}
