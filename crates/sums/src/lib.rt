// The annuity sums of curves: for each year t the sum of the lows of years 1 to t, and that of the highs.
#![tactic(auto)]

ghost use Rattle.std.specs.Prelude.{◌≡◌, ◌-◌, length, get_or};
ghost use Rattle.ledger.specs.Sums.{running_from, sums_of, summed};
ghost use Rattle.curve.specs.Curves.{as_curve, as_curves};
ghost use Rattle.sums.specs.Views.{as_sums, as_summed};

use curve::{Curve, Curves};
use rounding::Pairs;

pub type Sums = Pairs<u64, 150>;

// A curve, with its sums.
#[derive(Clone, Copy)]
pub struct Totalled {
    pub curve: Curve,
    pub sums: Sums,
}

// The curves of one sheet, with the sums of each.
#[derive(Clone, Copy)]
pub struct Summed {
    pub plain: Totalled,
    pub adjusted: Option<Totalled>,
}

// Each factor with all before it.
fn running(factors: &[u32]) -> [u64; 150]
    requires { length factors.now ≡ 150 }
    ensures { result ≡ running_from 0 factors.now }
{
    let mut sums = [0u64; 150];
    let mut sum: u64 = 0;
    for (i, factor) in factors.iter().enumerate() {
        sum += *factor as u64;
        sums[i] = sum;
    }
    sums
}

impl Totalled {
    fn of(curve: Curve) -> Totalled
        ensures curve { result.curve ≡ curve }
        ensures sums { as_sums result.sums ≡ sums_of (as_curve curve) }
    {
        Totalled {
            curve,
            sums: Sums {
                lows: running(&curve.years.lows),
                highs: running(&curve.years.highs),
            },
        }
    }
}

// The curves, with the sums of each.
pub fn with_sums(curves: Curves) -> Summed
    ensures { as_summed result ≡ summed (as_curves curves) }
{
    Summed {
        plain: Totalled::of(curves.plain),
        adjusted: curves.adjusted.map(Totalled::of),
    }
}

// The sum to a year, from 1; 0 past the last.
pub fn to_year(sums: &[u64], year: u64) -> u64
    ensures { result ≡ get_or sums.now (year - 1) 0 }
{
    sums.get(year.saturating_sub(1) as usize)
        .copied()
        .unwrap_or(0)
}
