// The curves of years 1 to 150 from a sheet's numbers, the plain one and the adjusted, or the first of grounds 7 to 10.
#![tactic(auto)]

ghost use Rattle.std.specs.Prelude.{◌≡◌, true, ◌&&◌, [], ◌∷◌, map, ◌-◌, ◌≤◌, leb, take, IfOk};
ghost use Rattle.std.proofs.Props.{props};
ghost use Rattle.method.specs.Ranges.{logarithm_bound, forward_bound, YearlyFactor};
ghost use Rattle.method.specs.Sheet.{euro, from_ten};
ghost use Rattle.method.specs.Grounds.{done};
ghost use Rattle.method.specs.Quotes.{lower_end, upper_end, bootstrap};
ghost use Rattle.method.specs.Series.{gap_forward};
ghost use Rattle.method.specs.Extrapolation.{llfr, first_too_wide};
ghost use Rattle.method.specs.Curve.{factor_of, curves_of};
ghost use Rattle.convergence.specs.Weights.{Factor};
ghost use Rattle.rounding.specs.Pairs.{as_pair, as_signed_pair, SizeAtMost};
ghost use Rattle.grounds.specs.Answers.{outcome_of};
ghost use Rattle.sheet.specs.Views.{as_numbers, as_profile};
ghost use Rattle.extrapolation.specs.Extrapolated.{as_forwards, as_years, ForwardSizes};
ghost use Rattle.curve.specs.Curves.{as_curve, as_curves, first_years, quoted_in, forwards_in, stretched, curve_from, adjusted_over, curves_over};
ghost use Rattle.curve.specs.Curves.{year_or_none, banded, WorkedQuotes, Onward, Extending, Ready};
ghost use Rattle.curve.specs.Alike.{each_alike};

use adjustment::SMOOTHING_YEAR;
use bootstrap::Liquid;
use extrapolation::{Forwards, Years};
use gap::{LOWER_END, UPPER_END};
use grounds::Ground;
use rounding::{Pair, SignedPair};
use sheet::{Numbers, Profile};

// The year that profile 2 smooths from, its last quote's.
const YEAR_TEN: usize = 10;

const YEARS: usize = 150;

#[derive(Clone, Copy)]
pub struct Curve {
    pub month: u64,
    pub limit: u64,
    pub years: Years,
}

// The adjusted one where the sheet has an adjustment.
#[derive(Clone, Copy)]
pub struct Curves {
    pub plain: Curve,
    pub adjusted: Option<Curve>,
}

// ---- the forwards: the first ones are the market's, as many as it has volumes

// The one of a market with one volume.
fn one_forward(x: Pair) -> Forwards
    requires { YearlyFactor (as_pair x) }
    ensures { (take 1 (as_forwards result) ≡ gap_forward (as_pair x) ∷ []) × ForwardSizes logarithm_bound result }
{
    let mut g = [SignedPair { low: 0, high: 0 }; 5];
    g[0] = series::gap_forward(x);
    g
}

fn within_ends(x: Pair) -> bool
    ensures { result ≡ (leb lower_end x.low && leb x.high upper_end) }
{
    LOWER_END <= x.low && x.high <= UPPER_END
}

// A sheet's numbers, and the liquid part of the quotes that they leave.
#[derive(Clone, Copy)]
struct Worked {
    n: Numbers,
    q: Liquid,
    ghost worked: { WorkedQuotes (as_numbers n) q } by { Prim.hlevel (each_alike, props) },
}

impl Worked {
    // The euro's g1 to g5.
    fn five_forwards(self) -> Forwards
        requires { as_profile self.n.profile ≡ euro }
        ensures { (done (forwards_in (as_numbers self.n) result) ≡ stretched (as_numbers self.n)) × ForwardSizes logarithm_bound result }
    {
        extrapolation::gap_forwards(used_quotes::spread_out(self.n.volumes, self.q.xs, self.q.gaps))
    }

    // Profile 2 has no gap: its x is year 10 over year 9, which 9 tries here.
    fn own_forward(self) -> Result<Forwards, Ground>
        requires { as_profile self.n.profile ≡ from_ten }
        ensures outcome { outcome_of (forwards_in (as_numbers self.n)) result ≡ stretched (as_numbers self.n) }
        ensures sizes { IfOk result (λ g. ForwardSizes logarithm_bound g) }
    {
        let x = used_quotes::year_over(self.q, YEAR_TEN);
        if !within_ends(x) {
            return Err(Ground::EndFailsTest(YEAR_TEN as u64));
        }
        Ok(one_forward(x))
    }

    // g1, and on to g5 for the euro. Profile 3 has two gaps, and the second ends with its smoothing year.
    fn forwards(self) -> Result<Forwards, Ground>
        ensures outcome { outcome_of (forwards_in (as_numbers self.n)) result ≡ stretched (as_numbers self.n) }
        ensures sizes { IfOk result (λ g. ForwardSizes logarithm_bound g) }
    {
        match self.n.profile {
            Profile::Euro => Ok(self.five_forwards()),
            Profile::FromTen => self.own_forward(),
            Profile::FromFifteen => Ok(one_forward(used_quotes::gap_x(self.q, 1))),
        }
    }
}

// LLFR. With one volume it is that volume's forward.
fn llfr_of(n: Numbers, g: Forwards) -> SignedPair
    requires { ForwardSizes forward_bound g }
    ensures { (as_signed_pair result ≡ llfr (as_numbers n).volumes (forwards_in (as_numbers n) g)) × SizeAtMost forward_bound result }
{
    let market = n.profile.market();
    if market.quotes - market.smoothing == 1 {
        return g[0];
    }
    extrapolation::llfr(n.volumes, g)
}

// ---- from the quotes to the extrapolation

// The years to the smoothing year, and zeros. The loop is to the latest one: with a loop to the year itself the compiler copies the
// bootstrap's arrays at every quote, 4% of a post's instructions.
fn first_years(q: Liquid, year: usize) -> Years
    requires { year ≤ 20 }
    ensures { (result.lows ≡ first_years year q.lows) × (result.highs ≡ first_years year q.highs) }
{
    let mut years = Years {
        lows: [0; 150],
        highs: [0; 150],
    };
    for i in 0..SMOOTHING_YEAR {
        if year <= i {
            return years;
        }
        years.lows[i] = q.lows[i];
        years.highs[i] = q.highs[i];
    }
    years
}

// The sheet's convergence factor, by its phase-in and the rate of the smoothing year.
fn factor_of(n: Numbers) -> u64
    ensures { (result ≡ factor_of (as_numbers n)) × Factor result }
{
    let smoothing = n.profile.market().smoothing;
    convergence::factor(n.phase_in, n.rates[smoothing] as i64)
}

// ---- ground 10

// The first year whose band passes the limit.
fn first_too_wide(years: &Years, limit: u64) -> Option<u64>
    ensures { result ≡ year_or_none (first_too_wide limit 1 (as_years years.now)) }
{
    years
        .lows
        .iter()
        .zip(&years.highs)
        .position(|(low, high)| limit < high.saturating_sub(*low) as u64)
        .map(|i| i as u64 + 1)
}

// Tried after all years are worked.
fn judged(c: Curve) -> Result<Curve, Ground>
    ensures { outcome_of as_curve result ≡ banded (as_curve c) }
{
    match first_too_wide(&c.years, c.limit) {
        Some(wide) => Err(Ground::BandTooWide(wide)),
        None => Ok(c),
    }
}

// ---- the curves, from the forwards and the years to the smoothing year: grounds 8 and 10

// What both are extended with beside them: L and κ, which has a pair for each year after the smoothing year.
#[derive(Clone, Copy)]
struct Extension<'a> {
    n: Numbers,
    l: SignedPair,
    weights: &'a [Pair],
    ghost onward: { Onward (as_numbers n) l (map as_pair weights.now) },
}

impl Extension<'_> {
    // From LLFR: 8 on the extrapolated years, then 10.
    fn extended(&self, f: SignedPair, years: Years) -> Result<Curve, Ground>
        requires { Extending (as_numbers self.now.n) f years }
        ensures { outcome_of as_curve result ≡ curve_from (as_numbers self.now.n) (as_signed_pair f) (quoted_in (as_numbers self.now.n) years) }
    {
        let start = self.n.profile.smoothing_year() as usize;
        let years = extrapolation::extrapolate(self.l, f, self.weights, start, years)?;
        judged(Curve {
            month: self.n.month,
            limit: self.n.limit,
            years,
        })
    }

    // The euro's only: 8 on the adjusted years, then the same on those after them, from the changed LLFR.
    fn adjusted(&self, a: i64, g: Forwards, years: Years) -> Result<Curve, Ground>
        requires ready { Ready (as_numbers self.now.n) g years }
        requires adjusts { ((as_numbers self.now.n).adjusts ≡ true) × ((as_numbers self.now.n).adjustment ≡ a) }
        ensures { outcome_of as_curve result ≡ adjusted_over (as_numbers self.now.n) g years }
    {
        let first = adjustment::adjusted_years(a, years)?;
        self.extended(llfr_of(self.n, adjustment::raise_first(g, a)), first)
    }

    // The plain curve first; then the adjusted one, where the sheet has an adjustment.
    fn both(&self, g: Forwards, years: Years) -> Result<Curves, Ground>
        requires { Ready (as_numbers self.now.n) g years }
        ensures { outcome_of as_curves result ≡ curves_over (as_numbers self.now.n) g years }
    {
        let plain = self.extended(llfr_of(self.n, g), years)?;
        let Some(a) = self.n.adjustment else {
            return Ok(Curves {
                plain,
                adjusted: None,
            });
        };
        let lowered = self.adjusted(a, g, years)?;
        Ok(Curves {
            plain,
            adjusted: Some(lowered),
        })
    }
}

// ---- both: grounds 7 to 10

impl Worked {
    // From the forwards of the quotes.
    fn curves(self, g: Forwards) -> Result<Curves, Ground>
        requires { (stretched (as_numbers self.n) ≡ done (forwards_in (as_numbers self.n) g)) × ForwardSizes logarithm_bound g }
        ensures { outcome_of as_curves result ≡ curves_of (as_numbers self.n) }
    {
        let n = self.n;
        let weights = convergence::weights_at(factor_of(n));
        let year = n.profile.smoothing_year() as usize;
        let later = YEARS - year;
        let l = series::ultimate_forward(n.ultimate);
        let extension = Extension {
            n,
            l,
            weights: &weights[..later],
        };
        extension.both(g, first_years(self.q, year))
    }
}

// 7 to 9 on the quotes that are used and their stretches, then the rest.
pub fn from_numbers(n: Numbers) -> Result<Curves, Ground>
    ensures { outcome_of as_curves result ≡ curves_of (as_numbers n) }
{
    let q = bootstrap::bootstrap(used_quotes::select(n))?;
    let worked = Worked { n, q };
    let g = worked.forwards()?;
    worked.curves(g)
}
