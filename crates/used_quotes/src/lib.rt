// The quotes that a sheet's volumes leave, and for each stretch between two quotes its x: that of the used gap that it lies in, or where it
// is a quoted year alone that year over the one before.
#![tactic(auto)]

ghost use Rattle.std.specs.Prelude.{◌≡◌, false, cond, map, ◌+◌, ◌≤◌, ◌<◌, ltb, take, drop, get_or};
ghost use Rattle.fraction.specs.Rounding.{U};
ghost use Rattle.method.specs.Units.{pair};
ghost use Rattle.method.specs.Quotes.{used};
ghost use Rattle.method.specs.Curve.{used_quotes, spread, year_over};
ghost use Rattle.rounding.specs.Pairs.{as_pair};
ghost use Rattle.sheet.specs.Views.{as_numbers};
ghost use Rattle.bootstrap.specs.Liquids.{as_quotes, as_bootstrap, QuotesClimb};
ghost use Rattle.used_quotes.specs.Factors.{FactorOf};

use bootstrap::{Liquid, Quotes};
use rounding::{ONE, Pair, UNIT};
use sheet::Numbers;

// The gap that ends with the euro's smoothing year.
const SMOOTHING_GAP: usize = 2;

// ---- the quotes

// Up to the smoothing year all are, past it those whose maturity has volume.
fn is_used(smoothing: usize, volumes: [u64; 5], i: usize) -> bool
    requires { i < smoothing + 5 }
    ensures { result ≡ get_or (used smoothing volumes) i false }
{
    i <= smoothing || 0 < volumes[i - smoothing]
}

// In the order of their maturities. Written in place: there is no heap to collect them in.
pub fn select(n: Numbers) -> Quotes
    ensures quotes { as_quotes result ≡ used_quotes (as_numbers n) }
    ensures climb { QuotesClimb result }
{
    let market = n.profile.market();
    let mut q = Quotes {
        maturities: [0; 17],
        rates: [0; 17],
        count: 0,
    };
    for i in 0..market.quotes {
        if is_used(market.smoothing, n.volumes, i) {
            q.maturities[q.count] = sheet::maturity(i);
            q.rates[q.count] = n.rates[i];
            q.count += 1;
        }
    }
    q
}

// ---- a quoted year over the one before

// The factor of an index.
fn factor_at(q: Liquid, i: usize) -> Pair
    requires { (i < q.count) }
    ensures { FactorOf q i result }
{
    Pair {
        low: q.lows[i] as u64,
        high: q.highs[i] as u64,
    }
}

// Rounded outward.
pub fn year_over(q: Liquid, year: usize) -> Pair
    requires { (2 ≤ year) × (year ≤ q.count) }
    ensures { as_pair result ≡ year_over (as_bootstrap q).factors year }
{
    let last = factor_at(q, year - 1);
    let before = factor_at(q, year - 2);
    Pair {
        low: rounding::quotient(last.low * UNIT, before.high, false),
        high: rounding::quotient(last.high * UNIT, before.low, true),
    }
}

// ---- the gaps

// The gap after a quote of this volume past the smoothing year, where the one before it is `gap`.
fn gap_after(gap: usize, volume: u64) -> usize
    requires { gap ≤ 7 }
    ensures { (result ≡ cond (ltb 0 volume) (gap + 1) gap) × (result ≤ gap + 1) }
{
    if 0 < volume { gap + 1 } else { gap }
}

// 1 past the last gap.
fn x_of(xs: [Pair; 7], gaps: usize, gap: usize) -> Pair
    requires { gaps ≤ 7 }
    ensures { as_pair result ≡ get_or (map as_pair (take gaps xs)) gap (pair U U) }
{
    if gap < gaps { xs[gap] } else { ONE }
}

// A gap's, at both ends.
pub fn gap_x(q: Liquid, gap: usize) -> Pair
    ensures { as_pair result ≡ get_or (as_bootstrap q).yearly_factors gap (pair U U) }
{
    x_of(q.xs, q.gaps, gap)
}

// The euro's: the x of 15-20, 20-25, 25-30, 30-40 and 40-50.
pub fn spread_out(volumes: [u64; 5], xs: [Pair; 7], gaps: usize) -> [Pair; 5]
    requires { gaps ≤ 7 }
    ensures { map as_pair result ≡ spread (pair U U) (drop 12 (used 12 volumes)) (drop 2 (map as_pair (take gaps xs))) }
{
    let to25 = SMOOTHING_GAP + 1;
    let to30 = gap_after(to25, volumes[1]);
    let to40 = gap_after(to30, volumes[2]);
    let to50 = gap_after(to40, volumes[3]);
    [
        x_of(xs, gaps, SMOOTHING_GAP),
        x_of(xs, gaps, to25),
        x_of(xs, gaps, to30),
        x_of(xs, gaps, to40),
        x_of(xs, gaps, to50),
    ]
}
