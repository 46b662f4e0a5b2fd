// A quoted year by par, and a gap between two quotes: the trial at a yearly factor, its two tests against par, and the halving
// for the low and the high yearly factor.
#![tactic(auto)]

ghost use Rattle.std.specs.Prelude.{◌≡◌, true, ◌&&◌, ◌*◌, ◌-◌, ◌≤◌, pos, nat_abs, ◌+ℤ◌, ◌<ℤ◌};
ghost use Rattle.std.specs.Int.Signed.{mag};
ghost use Rattle.fraction.specs.Rounding.{U, round_ℕ};
ghost use Rattle.method.specs.Units.{pair, rate_unit};
ghost use Rattle.method.specs.Quotes.{par_numerator, surely_not_above, surely_not_below, halve, low_x, high_x, lower_end, upper_end};
ghost use Rattle.rounding.specs.Pairs.{as_pair, PairAtMost};
ghost use Rattle.gap.specs.Gaps.{as_gap, par_by, par_test, paid_side, par_side, passes_by, rises_by, Halved};
ghost use Rattle.gap.specs.Gaps.{largest, SumsOf, SideOf};

mod quote_gap;

pub use quote_gap::Gap;
use rounding::{Pair, RATE_UNIT, UNIT};

// Of a swap's value.
const PAR: u64 = 100_000_000_000_000;

// The ends that the halving starts from, of a gap's x and of one year's over the year before.
pub const LOWER_END: u64 = 800_000_000;

pub const UPPER_END: u64 = 1_100_000_000;

// In a trial of so many years every product of T and x fits 64 bits.
const SHORT: u64 = 20;

// S and Tk of a trial.
#[derive(Clone, Copy)]
struct Sums {
    total: u64,
    last: u64,
}

// The two sides of a comparison with par: the part of a rate below 0 stands on par's.
#[derive(Clone, Copy)]
struct Sides {
    paid: u64,
    par: u64,
}

// ---- the factor by par

// U × 100,000 - rate × A.
fn numerator(rate: i64, annuity: u64) -> i64
    requires { (mag rate ≤ 12_000) × (annuity ≤ 100_000_000_000) }
    ensures { result ≡ par_numerator rate annuity }
{
    PAR as i64 - rate * (annuity as i64)
}

// 100,000 + rate.
fn denominator(rate: i64) -> i64
    requires { mag rate ≤ 12_000 }
    ensures { (result ≡ pos rate_unit +ℤ rate) × (pos 0 <ℤ result) }
{
    RATE_UNIT as i64 + rate
}

// The low takes the end of A that makes it smaller, the high the other.
pub fn par_factor(rate: i64, annuity: Pair, up: bool) -> i64
    requires { (mag rate ≤ 12_000) × PairAtMost 100_000_000_000 annuity }
    ensures { result ≡ par_by up rate (as_pair annuity) }
{
    let a = rounding::end(annuity, (rate < 0) == up);
    rounding::signed_quotient(numerator(rate, a), denominator(rate), up)
}

// ---- the value against par

fn weigh(rate: i64, annuity: u64, last: u64) -> Sides
    requires { (mag rate ≤ 12_000) × (annuity ≤ 1_200_000_000_000) × (last ≤ 35_000_000_000) }
    ensures { (result.paid ≡ paid_side rate annuity last) × (result.par ≡ par_side rate annuity) }
{
    let moved = rate.unsigned_abs() * annuity;
    let paid = RATE_UNIT * last;
    if rate < 0 {
        Sides {
            paid,
            par: PAR + moved,
        }
    } else {
        Sides {
            paid: moved + paid,
            par: PAR,
        }
    }
}

// At most par with `up`, at least par without.
fn compared(rate: i64, annuity: u64, last: u64, up: bool) -> bool
    requires { (mag rate ≤ 12_000) × (annuity ≤ 1_200_000_000_000) × (last ≤ 35_000_000_000) }
    ensures { result ≡ par_test up rate annuity last }
{
    let s = weigh(rate, annuity, last);
    if up { s.paid <= s.par } else { s.par <= s.paid }
}

// ---- the trial

// T × x / U. In a long trial the product may not fit, and is split.
fn year_on(t: u64, x: u64, up: bool, long: bool) -> u64
    requires { (t ≤ largest long) × (x ≤ upper_end) }
    ensures { result ≡ round_ℕ up (t * x) U }
{
    if long {
        rounding::split_quotient(t, x, UNIT, up)
    } else {
        rounding::quotient(t * x, UNIT, up)
    }
}

fn trial(start: u64, x: u64, years: u64, up: bool) -> Sums
    requires { (start ≤ 2_000_000_000) × (x ≤ upper_end) × (years ≤ 30) }
    ensures { SumsOf up start x years result }
{
    let long = SHORT < years;
    let mut last = start;
    let mut total = 0;
    for _ in 0..years {
        last = year_on(last, x, up, long);
        total += last;
    }
    Sums { total, last }
}

impl Gap {
    // A + S and Tk on one side.
    fn side(&self, x: u64, up: bool) -> Sums
        requires { x ≤ upper_end }
        ensures { SideOf (as_gap self.now) x up result }
    {
        let t = trial(rounding::end(self.start, up), x, self.years, up);
        Sums {
            total: rounding::end(self.annuity, up) + t.total,
            last: t.last,
        }
    }

    // Surely not above par with `up`, surely not below without. A rate of 0 or more needs one side of the trial alone; one below 0
    // takes the annuity from the other.
    pub fn passes(&self, x: u64, up: bool) -> bool
        requires { x ≤ upper_end }
        ensures { result ≡ passes_by up (as_gap self.now) x }
    {
        let same = self.side(x, up);
        if self.rate < 0 {
            let other = self.side(x, !up);
            compared(self.rate, other.total, same.last, up)
        } else {
            compared(self.rate, same.total, same.last, up)
        }
    }

    // Whether the middle becomes the lower end: for the low yearly factor where it is surely not above par, for the high one where it
    // is not surely not below.
    fn rises(&self, low: bool, x: u64) -> bool
        requires { x ≤ upper_end }
        ensures { result ≡ rises_by low (as_gap self.now) x }
    {
        self.passes(x, low) == low
    }

    // Halves until the ends are 1 apart; the lower end for the low yearly factor, the upper for the high.
    fn halve(&self, low: bool, lo: u64, hi: u64) -> u64
        requires { (lo ≤ hi) × (hi ≤ upper_end) }
        ensures { Halved low (as_gap self.now) lo hi result }
    {
        if 1 < hi - lo {
            let middle = lo + (hi - lo) / 2;
            if self.rises(low, middle) {
                self.halve(low, middle, hi)
            } else {
                self.halve(low, lo, middle)
            }
        } else {
            if low { lo } else { hi }
        }
    }

    // From the ends 0.8 and 1.1.
    fn halved(&self, low: bool) -> u64
        ensures { Halved low (as_gap self.now) lower_end upper_end result }
    {
        self.halve(low, LOWER_END, UPPER_END)
    }
}

// Both ends pass their test, without which there is no yearly factor.
pub fn ends_pass(g: Gap) -> bool
    ensures { result ≡ (surely_not_above (as_gap g) lower_end && surely_not_below (as_gap g) upper_end) }
{
    g.passes(LOWER_END, true) && g.passes(UPPER_END, false)
}

// The low and the high yearly factor.
pub fn yearly_factor(g: Gap) -> Pair
    ensures { as_pair result ≡ pair (low_x (as_gap g)) (high_x (as_gap g)) }
{
    Pair {
        low: g.halved(true),
        high: g.halved(false),
    }
}
