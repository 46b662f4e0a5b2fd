// The volatility adjustment, equal to the definitions of the crate method (SPECIFICATION 5.6): the years to 20 taken through the
// year's step, year t t times, and the first of LLFR's forwards raised. E at the adjustment is worked once for each side.
#![tactic(auto)]

ghost use Rattle.std.specs.Prelude.{◌≡◌, ◌+◌, ◌≤◌, nat_abs};
ghost use Rattle.method.specs.Quotes.{highest_factor};
ghost use Rattle.method.specs.Ranges.{logarithm_bound, forward_bound};
ghost use Rattle.method.specs.Extrapolation.{billionths, first_raised};
ghost use Rattle.extrapolation.specs.Extrapolated.{as_forwards, GrowthFor, ForwardSizes};
ghost use Rattle.adjustment.specs.Adjusting.{steps_by, Small, most_steps, FactorsTo, Adjusts};

use extrapolation::{Forwards, Years};
use grounds::Ground;
use rounding::HIGHEST_FACTOR;

// The euro's, the latest of the markets'. The years to it are adjusted; all later ones are extrapolated.
pub const SMOOTHING_YEAR: usize = 20;

// Hundred-thousandths, in billionths.
fn billionths(a: i64) -> i64
    requires { nat_abs a ≤ 500 }
    ensures { (result ≡ billionths a) × Small result }
{
    a * 10_000
}

// g1 gains as much at both ends.
pub fn raise_first(mut g: Forwards, a: i64) -> Forwards
    requires { ForwardSizes logarithm_bound g × (nat_abs a ≤ 500) }
    ensures { (as_forwards result ≡ first_raised a (as_forwards g)) × ForwardSizes forward_bound result }
{
    let more = billionths(a);
    g[0].low += more;
    g[0].high += more;
    g
}

// One end of a year, t times through the step.
fn steps(f: i64, growth: u64, factor: u64, t: usize, up: bool) -> u64
    requires { GrowthFor up f growth × Small f × (factor ≤ highest_factor) × (t ≤ 20) }
    ensures { (result ≡ steps_by up f t factor) × (result ≤ highest_factor + most_steps) }
{
    let mut x = factor;
    for _ in 0..t {
        x = extrapolation::step_with(f, growth, x, up);
    }
    x
}

// The years to 20, or the first that ground 8 refuses; those after them are as they came. By index, because the index is the year.
pub fn adjusted_years(a: i64, mut years: Years) -> Result<Years, Ground>
    requires { (nat_abs a ≤ 500) × FactorsTo years }
    ensures { Adjusts a years result }
{
    let f = billionths(a);
    let down = extrapolation::growth_by(f, false);
    let up = extrapolation::growth_by(f, true);
    for i in 0..SMOOTHING_YEAR {
        let low = steps(f, down, years.lows[i] as u64, i + 1, false);
        let high = steps(f, up, years.highs[i] as u64, i + 1, true);
        if HIGHEST_FACTOR < high {
            return Err(Ground::HighAboveLimit(i as u64 + 1));
        }
        years.lows[i] = low as u32;
        years.highs[i] = high as u32;
    }
    Ok(years)
}
