// The search for the annual zero rates of a year's band. A rate is counted by its multiplier, 100,000 more. Either rate stands where
// the growth over the years comes to pass a bound: the low one at the last multiplier whose growth, rounded up, is within it, the high
// one at the first whose growth, rounded down, is past it.
#![tactic(auto)]

ghost use Rattle.std.specs.Prelude.{◌≡◌, ℕ, ◌+◌, ◌*◌, ◌<◌, ◌≤◌, min, true, false};
ghost use Rattle.fraction.specs.Rounding.{round_ℕ};
ghost use Rattle.method.specs.Units.{pair, rate_unit};
ghost use Rattle.zero_rates.specs.Rates.{low_multiplier, rate_of, zero_rates};
ghost use Rattle.grounds.specs.Answers.{outcome_of};
ghost use Rattle.rounding.specs.Pairs.{as_signed_pair};
ghost use Rattle.rate_search.specs.Search.{unit_squared, cap, growth_cut, GrowthsOf, within, confirmed, Between, Turns};

use grounds::Ground;
use rounding::{SignedPair, UNIT};
use std::num::nearest_u64_to_f64;

const UNIT_SQUARED: u64 = 1_000_000_000_000_000_000;

// Past every bound: what grows beyond it is cut to it, so that it fits 64 bits.
const CAP: u64 = 1_000_000_000_000_000_001;

const RATE_UNIT: u64 = 100_000;

// At multipliers next to each other.
#[derive(Clone, Copy)]
struct Growths {
    here: u64,
    next: u64,
}

// Where the growth over some years comes to pass a bound: rounded up, or down.
#[derive(Clone, Copy)]
struct Search {
    years: u64,
    bound: u64,
    up: bool,
}

// ---- growth

// One more year: g × m / 100,000. A small g needs one division; a large one is split, as its product does not fit.
fn year_on(g: u64, m: u64, up: bool) -> u64
    requires { (g ≤ cap) × (m ≤ 200_001) }
    ensures { result ≡ min (round_ℕ up (g * m) rate_unit) cap }
{
    if g < 90_000_000_000_000 {
        return rounding::small_quotient(g * m, RATE_UNIT, up);
    }
    rounding::split_quotient(g, m, RATE_UNIT, up).min(CAP)
}

// At m and at m + 1 in one loop, as neither waits for the other.
fn grow(m: u64, years: u64, up: bool) -> Growths
    requires { m ≤ 200_000 }
    ensures { GrowthsOf up m years result }
{
    let mut here = UNIT;
    let mut next = UNIT;
    for _ in 0..years {
        here = year_on(here, m, up);
        next = year_on(next, m + 1, up);
    }
    Growths { here, next }
}

// At m alone: half the work, where the next does not matter.
fn grown(m: u64, years: u64, up: bool) -> u64
    requires { m ≤ 200_000 }
    ensures { result ≡ growth_cut up m years }
{
    let mut g = UNIT;
    for _ in 0..years {
        g = year_on(g, m, up);
    }
    g
}

// Growth by squaring, in floating point: nearly right, and so only a guess.
fn nearly(m: u64, years: u64) -> f64
    requires { m ≤ 200_000 }
{
    let mut product = 1_000_000_000.0;
    let mut square = m as u32 as f64 * 0.00001;
    let mut left = years;
    while 0 < left {
        if left % 2 == 1 {
            product *= square;
        }
        square *= square;
        left /= 2;
    }
    product
}

// ---- the search

// Halves until the ends are 1 apart, by whether the middle becomes the lower end, and hands back the lower.
fn halve<F: Fn(u64) -> bool>(rises: F, lo: u64, hi: u64) -> u64
    requires ends { lo < hi }
    requires callable { (m : ℕ) → lo < m → m < hi → F.pre rises m }
    ensures between { Between lo hi result }
    ensures here { lo < result → F.post rises result true }
    ensures next { result + 1 < hi → F.post rises (result + 1) false }
{
    let mut below = lo;
    let mut above = hi;
    while 1 < above - below {
        let middle = below + (above - below) / 2;
        if rises(middle) {
            below = middle;
        } else {
            above = middle;
        }
    }
    below
}

impl Search {
    // By the guess.
    fn nearly_within(&self, m: u64) -> bool
        requires { m ≤ 200_000 }
    {
        nearly(m, self.years) <= nearest_u64_to_f64(self.bound)
    }

    // By the exact growth.
    fn within(&self, m: u64) -> bool
        requires { (m ≤ 200_000) × (self.now.bound ≤ unit_squared) }
        ensures { result ≡ within self.now.up self.now.years self.now.bound m }
    {
        grown(m, self.years, self.up) <= self.bound
    }

    // Whether the growth comes to pass the bound right after m.
    fn turns(&self, m: u64, hi: u64) -> bool
        requires { (m < hi) × (hi ≤ 200_001) × (self.now.bound ≤ unit_squared) }
        ensures { result ≡ confirmed self.now.up self.now.years self.now.bound hi m }
    {
        let g = grow(m, self.years, self.up);
        g.here <= self.bound && (hi <= m + 1 || self.bound < g.next)
    }

    // `near`, where one is known, is tried first, if it lies between the ends, then the guess. Both are tested, and where both are wrong the exact growth
    // finds the place: that costs more than ten times as much, and is hardly ever needed.
    fn turning_point(&self, near: Option<u64>, lo: u64, hi: u64) -> u64
        requires { (lo < hi) × (hi ≤ 200_001) × (self.now.bound ≤ unit_squared) }
        ensures { Turns self.now.up self.now.years self.now.bound lo hi result }
    {
        if let Some(near) = near
            && lo <= near
            && near < hi
            && self.turns(near, hi)
        {
            return near;
        }
        let guess = halve(|m| self.nearly_within(m), lo, hi);
        if self.turns(guess, hi) {
            return guess;
        }
        halve(|m| self.within(m), lo, hi)
    }
}

// The largest multiplier whose growth, rounded up, times the high is at most U × U. Of a high of 0 it is the greatest. It is often the
// last one that falls short for the low, as most bands are much narrower than what one step of a rate makes.
fn low_multiplier(high: u64, years: u64, short: u64) -> u64
    ensures { (result ≡ low_multiplier years high) × (result ≤ 200_000) }
{
    if high == 0 {
        return 200_000;
    }
    let stays = Search {
        years,
        bound: UNIT_SQUARED / high,
        up: true,
    };
    stays.turning_point(Some(short), 50_000, 200_001)
}

fn rate(multiplier: u64) -> i64
    requires { multiplier ≤ 200_000 }
    ensures { result ≡ rate_of multiplier }
{
    multiplier as i64 - 100_000
}

// 17, or the rates. The multiplier past the last one that falls short is the high rate's; a low of 0 falls short at all.
pub fn zero_rates(years: u64, low: u64, high: u64) -> Result<SignedPair, Ground>
    ensures { outcome_of as_signed_pair result ≡ zero_rates years (pair low high) }
{
    if low == 0 {
        return Err(Ground::NoHighRate);
    }
    let misses = Search {
        years,
        bound: (UNIT_SQUARED - 1) / low,
        up: false,
    };
    let short = misses.turning_point(None, 49_999, 200_001);
    if 200_000 <= short {
        return Err(Ground::NoHighRate);
    }
    Ok(SignedPair {
        low: rate(low_multiplier(high, years, short)),
        high: rate(short + 1),
    })
}
