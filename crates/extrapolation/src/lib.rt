// LLFR and the extrapolated years, equal to the definitions of the crate method (SPECIFICATION 5). Each function that takes `up`
// works a high with it, and a low without.
#![tactic(auto)]

ghost use Rattle.std.specs.Prelude.{◌≡◌, map, ℕ, ◌*◌, ◌-◌, ◌≤◌, ◌<◌, pos, nat_abs, ◌*ℤ◌, get_or, IfOk};
ghost use Rattle.fraction.specs.Rounding.{U, round_ℤ};
ghost use Rattle.method.specs.Units.{pair};
ghost use Rattle.method.specs.Quotes.{highest_factor};
ghost use Rattle.method.specs.Ranges.{logarithm_bound, forward_bound, YearlyFactor};
ghost use Rattle.method.specs.Sheet.{total};
ghost use Rattle.method.specs.Series.{gap_forward};
ghost use Rattle.method.specs.Extrapolation.{llfr_numerator, llfr, blend, forward, step};
ghost use Rattle.rounding.specs.Pairs.{as_pair, as_signed_pair, PairAtMost, SizeAtMost};
ghost use Rattle.extrapolation.specs.Extrapolated.{as_forwards, signed_end, factor_at, outer, step_by, GrowthFor, step_range, volume_bound};
ghost use Rattle.extrapolation.specs.Extrapolated.{ForwardSizes, WeightRange, InRange, Usable, Ahead, Extrapolates, Kept};

use grounds::Ground;
use rounding::{HIGHEST_FACTOR, Pair, Pairs, SignedPair, UNIT};

const SIGNED_UNIT: i64 = UNIT as i64;

// The forwards of five gaps.
pub type Forwards = [SignedPair; 5];

// From the x of each gap.
pub fn gap_forwards(xs: [Pair; 5]) -> Forwards
    requires { (i : ℕ) → i < 5 → YearlyFactor (get_or (map as_pair xs) i (pair 0 0)) }
    ensures { (as_forwards result ≡ map gap_forward (map as_pair xs)) × ForwardSizes logarithm_bound result }
{
    let mut forwards = [SignedPair { low: 0, high: 0 }; 5];
    for (i, x) in xs.iter().enumerate() {
        forwards[i] = series::gap_forward(*x);
    }
    forwards
}

// ---- LLFR (SPECIFICATION 5.1)

fn total(volumes: [u64; 5]) -> u64
    requires { (i : ℕ) → get_or volumes i 0 ≤ volume_bound }
    ensures { (result ≡ total volumes) × (result ≤ 5 * volume_bound) }
{
    volumes.iter().sum()
}

// One product of the numerator: g is the sum of up to six forwards.
fn product(weight: u64, volume: u64, g: i64) -> i64
    requires { (weight ≤ 12) × (volume ≤ volume_bound) × (nat_abs g ≤ 6 * forward_bound) }
    ensures { (result ≡ pos weight *ℤ pos volume *ℤ g) × (nat_abs result ≤ 12 * volume_bound * (6 * forward_bound)) }
{
    (weight * volume) as i64 * g
}

// 12 V20 g1 + 12 V25 g2 + 6 V30 (g2+g3) + 3 V40 (g2+g3+2g4) + 2 V50 (g2+g3+2g4+2g5)
fn llfr_numerator(volumes: [u64; 5], g: [i64; 5]) -> i64
    requires { ((i : ℕ) → get_or volumes i 0 ≤ volume_bound) × ((i : ℕ) → nat_abs (get_or g i (pos 0)) ≤ forward_bound) }
    ensures { result ≡ llfr_numerator volumes g }
{
    let to30 = g[1] + g[2];
    let to40 = to30 + 2 * g[3];
    let to50 = to40 + 2 * g[4];
    product(12, volumes[0], g[0])
        + product(12, volumes[1], g[1])
        + product(6, volumes[2], to30)
        + product(3, volumes[3], to40)
        + product(2, volumes[4], to50)
}

// Rounded once.
fn llfr_end(volumes: [u64; 5], g: [i64; 5], up: bool) -> i64
    requires { ((i : ℕ) → get_or volumes i 0 ≤ volume_bound) × (0 < total volumes) × ((i : ℕ) → nat_abs (get_or g i (pos 0)) ≤ forward_bound) }
    ensures { result ≡ round_ℤ up (llfr_numerator volumes g) (12 * total volumes) }
{
    rounding::signed_quotient(llfr_numerator(volumes, g), (12 * total(volumes)) as i64, up)
}

fn signed_end(f: SignedPair, up: bool) -> i64
    ensures { result ≡ signed_end up f }
{
    if up { f.high } else { f.low }
}

// The highs, or the lows. Not by `map`: the check does not derive the list that it maps to.
fn ends(g: Forwards, up: bool) -> [i64; 5]
    ensures { result ≡ map (signed_end up) g }
{
    let mut ends = [0; 5];
    for (i, f) in g.iter().enumerate() {
        ends[i] = signed_end(*f, up);
    }
    ends
}

pub fn llfr(volumes: [u64; 5], g: Forwards) -> SignedPair
    requires { ((i : ℕ) → get_or volumes i 0 ≤ volume_bound) × (0 < total volumes) × ForwardSizes forward_bound g }
    ensures { (as_signed_pair result ≡ llfr volumes (as_forwards g)) × SizeAtMost forward_bound result }
{
    SignedPair {
        low: llfr_end(volumes, ends(g, false), false),
        high: llfr_end(volumes, ends(g, true), true),
    }
}

// ---- the year's forward (SPECIFICATION 5.3)

// (L × (U - κ) + LLFR × κ) / U
fn blended(l: i64, f: i64, k: u64, up: bool) -> i64
    requires { (nat_abs l ≤ forward_bound) × (nat_abs f ≤ forward_bound) × (k ≤ U) }
    ensures { result ≡ round_ℤ up (blend l f k) U }
{
    rounding::signed_quotient(l * ((UNIT - k) as i64) + f * (k as i64), SIGNED_UNIT, up)
}

// The outer of the results for κ's low and its high: the larger for a high, the smaller for a low.
fn forward_end(l: i64, f: i64, k: Pair, up: bool) -> i64
    requires { (nat_abs l ≤ forward_bound) × (nat_abs f ≤ forward_bound) × WeightRange (as_pair k) }
    ensures { result ≡ outer up (round_ℤ up (blend l f k.low) U) (round_ℤ up (blend l f k.high) U) }
{
    let a = blended(l, f, k.low, up);
    let b = blended(l, f, k.high, up);
    if (a <= b) == up { b } else { a }
}

// ---- the year's step, times e to minus the forward (SPECIFICATION 5.4)

// E at the forward's size, of the side that a step takes: its own below 0, the other from 0 up. Two calls: with one, whose side is `(f < 0) == up`,
// the compiler no longer has a growth for either side, and a post costs a sixth more.
pub fn growth_by(f: i64, up: bool) -> u64
    requires { nat_abs f ≤ forward_bound }
    ensures { GrowthFor up f result }
{
    if f < 0 {
        series::growth(f.unsigned_abs(), up)
    } else {
        series::growth(f.unsigned_abs(), !up)
    }
}

// The step with it: times it below 0, over it from 0 up.
pub fn step_with(f: i64, growth: u64, factor: u64, up: bool) -> u64
    requires { GrowthFor up f growth × (factor ≤ step_range) }
    ensures { result ≡ step_by up f factor }
{
    if f < 0 {
        rounding::scale(factor, growth, up)
    } else {
        rounding::quotient(factor * UNIT, growth, up)
    }
}

// f is the forward's high for a low, and its low for a high.
fn step_end(f: i64, factor: u64, up: bool) -> u64
    requires { (nat_abs f ≤ forward_bound) × (factor ≤ highest_factor) }
    ensures { result ≡ step_by up f factor }
{
    step_with(f, growth_by(f, up), factor, up)
}

// The year after p, at the forward between L and LLFR for κ: the low takes its high, the high its low.
fn next_year(l: SignedPair, f: SignedPair, k: Pair, p: Pair) -> Pair
    requires { SizeAtMost forward_bound l × SizeAtMost forward_bound f × WeightRange (as_pair k) × PairAtMost highest_factor p }
    ensures { as_pair result ≡ step (forward (as_signed_pair l) (as_signed_pair f) (as_pair k)) (as_pair p) }
{
    let low = forward_end(l.low, f.low, k, false);
    let high = forward_end(l.high, f.high, k, true);
    Pair {
        low: step_end(high, p.low, false),
        high: step_end(low, p.high, true),
    }
}

// ---- the years

// Years 1 to 150, at index t - 1.
pub type Years = Pairs<u32, 150>;

// Entries before `start` hold the years to it; entry start + i is worked from the one before with the i-th weight, or refused by
// ground 8 (SPECIFICATION 5.5).
pub fn extrapolate(
    l: SignedPair,
    f: SignedPair,
    weights: &[Pair],
    start: usize,
    mut years: Years,
) -> Result<Years, Ground>
    requires { Usable l × Usable f × Ahead (map as_pair weights.now) start × InRange (factor_at years (start - 1)) }
    ensures outcome { Extrapolates l f (map as_pair weights.now) start years result }
    ensures kept { IfOk result (λ y. Kept start years y) }
{
    let mut p = Pair {
        low: years.lows[start - 1] as u64,
        high: years.highs[start - 1] as u64,
    };
    for (i, k) in weights.iter().enumerate() {
        p = next_year(l, f, *k, p);
        let at = start + i;
        if HIGHEST_FACTOR < p.high {
            return Err(Ground::HighAboveLimit(at as u64 + 1));
        }
        years.lows[at] = p.low as u32;
        years.highs[at] = p.high as u32;
    }
    Ok(years)
}
