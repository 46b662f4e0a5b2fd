// The logarithm G and the growth E, equal to the definitions of the crate method (SPECIFICATION 4). Each function that takes `up`
// works a high with it, and a low without.
#![tactic(auto)]

ghost use Rattle.std.specs.Prelude.{◌≡◌, ◌+◌, ◌-◌, ◌≤◌, ◌<◌};
ghost use Rattle.fraction.specs.Rounding.{U, round_ℕ};
ghost use Rattle.method.specs.Ranges.{logarithm_bound, growth_range, growth_bound, YearlyFactor};
ghost use Rattle.method.specs.Quotes.{lower_end, upper_end};
ghost use Rattle.method.specs.Series.{added, logarithm, G, gap_forward, ultimate_forward};
ghost use Rattle.rounding.specs.Pairs.{as_pair, as_signed_pair, SizeAtMost};
ghost use Rattle.series.specs.Sides.{growth_by, negated};

use rounding::{Pair, SignedPair, UNIT};

// The terms of the logarithm's sum, and of the growth's after t0.
const LOG_TERMS: u64 = 5;

const GROWTH_TERMS: u64 = 7;

// ---- what a high gains (SPECIFICATION 4): 1, and nothing where the result is known

fn added(known: u64, x: u64) -> u64
    ensures { (result ≡ added 0 known x) × (result ≤ 1) }
{
    if x == known { 0 } else { 1 }
}

// ---- G(x) = -ln x (SPECIFICATION 4.1), and the forwards made from it (4.2)

// |ln x|, without what is added to the high.
fn log_size(x: u64, up: bool) -> u64
    requires { (lower_end ≤ x) × (x ≤ upper_end) }
    ensures { (result ≡ logarithm (round_ℕ up) ((U - x) + (x - U)) x) × (result < logarithm_bound) }
{
    let z = rounding::quotient(UNIT.abs_diff(x) * UNIT, UNIT + x, up);
    let s = rounding::scale(z, z, up);
    let mut p = z;
    let mut sum = 0;
    for i in 0..LOG_TERMS {
        sum += rounding::quotient(p, 2 * i + 1, up);
        p = rounding::scale(p, s, up);
    }
    2 * sum
}

fn negate(f: SignedPair) -> SignedPair
    requires { SizeAtMost logarithm_bound f }
    ensures { (as_signed_pair result ≡ negated (as_signed_pair f)) × SizeAtMost logarithm_bound result }
{
    SignedPair {
        low: -f.high,
        high: -f.low,
    }
}

pub fn minus_log(x: u64) -> SignedPair
    requires { (lower_end ≤ x) × (x ≤ upper_end) }
    ensures { (as_signed_pair result ≡ G x) × SizeAtMost logarithm_bound result }
{
    let low = log_size(x, false);
    let high = log_size(x, true) + added(UNIT, x);
    let f = SignedPair {
        low: low as i64,
        high: high as i64,
    };
    if x <= UNIT { f } else { negate(f) }
}

// From G's low at the high x to G's high at the low x.
pub fn gap_forward(x: Pair) -> SignedPair
    requires { YearlyFactor (as_pair x) }
    ensures { (as_signed_pair result ≡ gap_forward (as_pair x)) × SizeAtMost logarithm_bound result }
{
    let from = minus_log(x.high);
    let to = minus_log(x.low);
    SignedPair {
        low: from.low,
        high: to.high,
    }
}

// L = ln(1 + UFR)
pub fn ultimate_forward(ufr: u64) -> SignedPair
    requires { ufr ≤ 10_000 }
    ensures { (as_signed_pair result ≡ ultimate_forward ufr) × SizeAtMost logarithm_bound result }
{
    negate(minus_log(UNIT + 10_000 * ufr))
}

// ---- E(y) = e^y (SPECIFICATION 4.3)

// t0 + .. + t7, and what is added to the high.
pub fn growth(y: u64, up: bool) -> u64
    requires { y ≤ growth_range }
    ensures { (result ≡ growth_by up y) × (U ≤ result) × (result ≤ growth_bound) }
{
    let mut t = UNIT;
    let mut sum = UNIT;
    for i in 1..=GROWTH_TERMS {
        t = rounding::quotient(t * y, i * UNIT, up);
        sum += t;
    }
    if up { sum + added(0, y) } else { sum }
}
