// A low and a high, and quotients rounded to either side: up for a high, down for a low. Each function that takes `up` works a
// high with it, and a low without.
#![tactic(auto)]

ghost use Rattle.std.specs.Prelude.{◌≡◌, ◌+◌, ◌*◌, ◌/◌, ◌^◌, ◌≤◌, ◌<◌, pos, nat_abs, ◌<ℤ◌};
ghost use Rattle.fraction.specs.Rounding.{U, ceil_div, ceiling, round_ℤ, round_ℕ};
ghost use Rattle.method.specs.Units.{end_of};
ghost use Rattle.rounding.specs.Pairs.{as_pair};

// U of the definitions.
pub const UNIT: u64 = 1_000_000_000;

// Of rates, which are in hundred-thousandths.
pub const RATE_UNIT: u64 = 100_000;

// Ground 8 refuses a high above it.
pub const HIGHEST_FACTOR: u64 = 2_000_000_000;

// A low and a high.
#[derive(Clone, Copy)]
pub struct Ends<T> {
    pub low: T,
    pub high: T,
}

// Factors and yearly factors.
pub type Pair = Ends<u64>;

// 1, at both ends.
pub const ONE: Pair = Pair {
    low: UNIT,
    high: UNIT,
};

// Logarithms and forwards, of either sign.
pub type SignedPair = Ends<i64>;

// So many of them, the lows and the highs apart.
#[derive(Clone, Copy)]
pub struct Pairs<T, const N: usize> {
    pub lows: [T; N],
    pub highs: [T; N],
}

// The high, or the low.
pub fn end(p: Pair, up: bool) -> u64
    ensures { result ≡ end_of up (as_pair p) }
{
    if up { p.high } else { p.low }
}

// By one division: the library's `div_ceil` takes the remainder too.
fn ceiling(a: u64, b: u64) -> u64
    requires { 0 < b }
    ensures { result ≡ ceil_div a b }
{
    if a == 0 { 0 } else { (a - 1) / b + 1 }
}

pub fn quotient(a: u64, b: u64, up: bool) -> u64
    requires { 0 < b }
    ensures { result ≡ round_ℕ up a b }
{
    if up { ceiling(a, b) } else { a / b }
}

// Where a and b leave room for the sum that the definition divides: then it is that sum, for speed.
pub fn small_quotient(a: u64, b: u64, up: bool) -> u64
    requires { (0 < b) × (a + b ≤ 2 ^ 64) }
    ensures { result ≡ round_ℕ up a b }
{
    if up { (a + (b - 1)) / b } else { a / b }
}

// a * m / b, whose product may not fit: the whole b's of a need no rounding, and leave a rest that fits.
pub fn split_quotient(a: u64, m: u64, b: u64, up: bool) -> u64
    requires { (0 < b) × (b * m ≤ 2 ^ 64) × ((a / b + 1) * m < 2 ^ 64) }
    ensures { result ≡ round_ℕ up (a * m) b }
{
    (a / b) * m + quotient((a % b) * m, b, up)
}

// a * x / U
pub fn scale(a: u64, x: u64, up: bool) -> u64
    requires { a * x < 2 ^ 63 }
    ensures { result ≡ round_ℕ up (a * x) U }
{
    small_quotient(a * x, UNIT, up)
}

// Toward plus infinity: the machine's quotient goes toward zero, and a remainder above zero says that it went down. Not by negation, as
// the definition: the least i64 has no negative.
fn ceil_div(a: i64, b: i64) -> i64
    requires { pos 0 <ℤ b }
    ensures { result ≡ ceiling a (nat_abs b) }
{
    let q = a / b;
    if 0 < a % b { q + 1 } else { q }
}

pub fn signed_quotient(a: i64, b: i64, up: bool) -> i64
    requires { pos 0 <ℤ b }
    ensures { result ≡ round_ℤ up a (nat_abs b) }
{
    if up { ceil_div(a, b) } else { a.div_euclid(b) }
}
