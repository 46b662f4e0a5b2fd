// The liquid part of a curve: the factors of the years to the last quote, at most 50, and the yearly factors of the quotes' gaps, or the
// first of grounds 7 to 9.
#![tactic(auto)]

ghost use Rattle.std.specs.Prelude.{◌≡◌, ◌+◌, ◌≤◌, ◌<◌, ◌++◌, ◌∷◌, [], nat_abs, IfOk};
ghost use Rattle.std.specs.Int.Signed.{mag, ◌≤ℤ◌};
ghost use Rattle.method.specs.Units.{pair};
ghost use Rattle.method.specs.Ranges.{Factor};
ghost use Rattle.method.specs.Quotes.{last_year, gap_after, gap_years, years_to, bootstrap, upper_end};
ghost use Rattle.rounding.specs.Pairs.{as_pair, as_signed_pair, PairAtMost};
ghost use Rattle.grounds.specs.Answers.{outcome_of};
ghost use Rattle.gap.specs.Gaps.{as_gap};
ghost use Rattle.bootstrap.specs.Sound.{Sound};
ghost use Rattle.bootstrap.specs.Years.{with_factors, with_gap, lifted, Judges, next_factor, next_years, quote};

mod all_quotes;

pub use all_quotes::bootstrap;
use gap::Gap;
use grounds::Ground;
use rounding::{HIGHEST_FACTOR, ONE, Pair, SignedPair};

// The first `count` of them, in the order of their maturities.
#[derive(Clone, Copy)]
pub struct Quotes {
    pub maturities: [u64; 17],
    pub rates: [i16; 17],
    pub count: usize,
}

// The first `count` factors, and A, their sum; the yearly factors of the first `gaps` gaps.
#[derive(Clone, Copy)]
pub struct Liquid {
    pub lows: [u32; 50],
    pub highs: [u32; 50],
    pub count: usize,
    pub annuity: Pair,
    pub xs: [Pair; 7],
    pub gaps: usize,
    pub ghost sound: { Sound lows highs count annuity xs gaps },
}

// ---- a year, judged

// 7 before 8.
fn judge(year: u64, low: i64, high: i64) -> Result<Pair, Ground>
    requires { low ≤ℤ high }
    ensures year { Judges year low high result }
    ensures factor { IfOk result (λ p. (as_pair p ≡ pair (nat_abs low) (nat_abs high)) × Factor (as_pair p)) }
{
    if low < 1 {
        return Err(Ground::LowBelowOne(year));
    }
    if (HIGHEST_FACTOR as i64) < high {
        return Err(Ground::HighAboveLimit(year));
    }
    Ok(Pair {
        low: low as u64,
        high: high as u64,
    })
}

// Before it is judged: inside a gap the factor before it by the yearly factor, otherwise by par.
fn next_factor(inside: bool, p: Pair, x: Pair, rate: i64, annuity: Pair) -> SignedPair
    requires { Factor (as_pair p) × (x.low ≤ x.high) × (x.high ≤ upper_end) × (mag rate ≤ 12_000) × PairAtMost 100_000_000_000 annuity }
    ensures { as_signed_pair result ≡ next_factor inside (as_pair p) (as_pair x) rate (as_pair annuity) }
{
    if inside {
        SignedPair {
            low: rounding::scale(p.low, x.low, false) as i64,
            high: rounding::scale(p.high, x.high, true) as i64,
        }
    } else {
        SignedPair {
            low: gap::par_factor(rate, annuity, false),
            high: gap::par_factor(rate, annuity, true),
        }
    }
}

impl Liquid {
    ghost use Rattle.bootstrap.specs.Liquids.{as_bootstrap, nothing, Reaches};

    // Before the first quote.
    pub(crate) fn fresh() -> Liquid
        ensures { (as_bootstrap result ≡ nothing) × (result.count ≡ 0) × (result.gaps ≡ 0) }
    {
        Liquid {
            lows: [0; 50],
            highs: [0; 50],
            count: 0,
            annuity: Pair { low: 0, high: 0 },
            xs: [ONE; 7],
            gaps: 0,
        }
    }

    // ---- the next years

    // One year more, which was judged.
    fn join_year(&mut self, p: Pair)
        requires { Factor (as_pair p) × (self.old.count < 50) }
        ensures factors { as_bootstrap self.new ≡ with_factors (as_bootstrap self.old) ((as_bootstrap self.old).factors ++ as_pair p ∷ []) }
        ensures count { self.new.count ≡ self.old.count + 1 }
    {
        self.lows[self.count] = p.low as u32;
        self.highs[self.count] = p.high as u32;
        self.count += 1;
        self.annuity.low += p.low;
        self.annuity.high += p.high;
    }

    // The next k years, the last by par, those before it inside a gap; each is judged in turn.
    fn next_years(&mut self, from: Pair, x: Pair, k: u64, rate: i64) -> Result<(), Ground>
        requires { (self.old.count + k ≤ 50) × Factor (as_pair from) × (x.low ≤ x.high) × (x.high ≤ upper_end) × (mag rate ≤ 12_000) }
        ensures { outcome_of (λ _. as_bootstrap self.new) result
            ≡ lifted (as_bootstrap self.old) (next_years (as_pair from) (as_pair x) k rate (as_bootstrap self.old).factors) }
    {
        let mut p = from;
        for year in 1..=k {
            let next = next_factor(year < k, p, x, rate, self.annuity);
            p = judge(self.count as u64 + 1, next.low, next.high)?;
            self.join_year(p);
        }
        Ok(())
    }

    // ---- a gap

    // The factor before a gap, 1 where there is none.
    fn last_year(&self) -> Pair
        ensures { as_pair result ≡ last_year (as_bootstrap self.now).factors }
    {
        let n = self.count;
        if n == 0 {
            return ONE;
        }
        Pair {
            low: self.lows[n - 1] as u64,
            high: self.highs[n - 1] as u64,
        }
    }

    // A gap's rate and years with what stands before it.
    fn gap_after(&self, k: u64, rate: i64) -> Gap
        requires { (k ≤ 30) × (mag rate ≤ 12_000) }
        ensures { (as_gap result ≡ gap_after (as_bootstrap self.now).factors k rate) × Factor (as_pair result.start) }
    {
        Gap {
            rate,
            years: k,
            annuity: self.annuity,
            start: self.last_year(),
        }
    }

    // One gap more.
    fn join_gap(&mut self, x: Pair)
        requires { self.old.gaps < 7 }
        ensures gap { as_bootstrap self.new ≡ with_gap (as_bootstrap self.old) (as_pair x) }
        ensures count { self.new.count ≡ self.old.count }
    {
        self.xs[self.gaps] = x;
        self.gaps += 1;
    }

    // 9 first, then the gap's years, the last by par.
    fn gap_years(&mut self, k: u64, rate: i64) -> Result<(), Ground>
        requires { (0 < k) × (k ≤ 30) × (self.old.count + k ≤ 50) × (self.old.gaps < 7) × (mag rate ≤ 12_000) }
        ensures { outcome_of (λ _. as_bootstrap self.new) result ≡ gap_years k rate (as_bootstrap self.old) }
    {
        let g = self.gap_after(k, rate);
        if !gap::ends_pass(g) {
            return Err(Ground::EndFailsTest(self.count as u64 + k));
        }
        let x = gap::yearly_factor(g);
        self.join_gap(x);
        self.next_years(g.start, x, k, rate)
    }

    // ---- a quote

    // The years to its maturity: the next one by par, or a gap.
    pub(crate) fn years_to(&mut self, maturity: u64, rate: i64) -> Result<(), Ground>
        requires { Reaches self.old maturity × (mag rate ≤ 12_000) }
        ensures { outcome_of (λ _. as_bootstrap self.new) result ≡ years_to (quote maturity rate) (as_bootstrap self.old) }
    {
        let k = maturity - self.count as u64;
        if k == 1 {
            self.next_years(ONE, ONE, 1, rate)
        } else {
            self.gap_years(k, rate)
        }
    }
}
