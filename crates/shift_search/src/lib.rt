// The smallest shift of a sheet's quotes at which a block's high is at most a target. Every shift is tried in its turn, from -500 up: neither the
// rounding nor grounds 7 to 10 leave an order among those that do.
#![tactic(auto)]

ghost use Rattle.std.specs.Prelude.{◌≡◌, ◌&&◌, ℕ, ◌≤◌, pos, nat_abs, take, get_or, is_some, IfSome};
ghost use Rattle.std.specs.Int.Signed.{le_z};
ghost use Rattle.method.specs.Sheet.{rate, lowest, highest};
ghost use Rattle.method.specs.Ranges.{RateInRange};
ghost use Rattle.shift.specs.Shift.{shifted_rates, shifted, quotes_inside};
ghost use Rattle.sheet.specs.Views.{as_numbers};
ghost use Rattle.block.specs.Views.{as_flows, paired};
ghost use Rattle.shift_search.specs.Views.{ShiftedAs, CostsAtMost, Meets, Searches, ShiftsBlock};

use block::{Block, Flow};
use grounds::Ground;
use sheet::{Kind, Numbers};

// ---- the shifted sheet

// Of the first quotes, so many; none where one of them leaves its range.
fn shift_rates(rates: [i16; 17], quotes: usize, s: i64) -> Option<[i16; 17]>
    requires { (quotes ≤ 17) × (nat_abs s ≤ 500) × ((i : ℕ) → RateInRange (get_or (take quotes rates) i (pos 0))) }
    ensures inside { is_some result ≡ quotes_inside (shifted_rates s (take quotes rates)) }
    ensures rates { IfSome result (λ next. take quotes next ≡ shifted_rates s (take quotes rates)) }
{
    let mut next = rates;
    for i in 0..quotes {
        let rate = rates[i] as i64 + s;
        if !Kind::Rate.admits(rate) {
            return None;
        }
        next[i] = rate as i16;
    }
    Some(next)
}

fn shift_numbers(n: Numbers, s: i64) -> Option<Numbers>
    requires { nat_abs s ≤ 500 }
    ensures inside { is_some result ≡ quotes_inside (shifted_rates s (as_numbers n).rates) }
    ensures numbers { IfSome result (λ next. as_numbers next ≡ shifted s (as_numbers n)) }
{
    let mut moved = n;
    moved.rates = shift_rates(n.rates, n.profile.market().quotes, s)?;
    Some(moved)
}

// ---- whether a shift does

// On a sheet's numbers as they are: 7 to 10, then the block's high on the plain curve.
fn costs_at_most(n: Numbers, block: &Block, target: u64) -> bool
    ensures { CostsAtMost (as_numbers n) block.now target result }
{
    let Ok(curves) = curve::from_numbers(n) else {
        return false;
    };
    let years = &curves.plain.years;
    block.value_on(&years.lows, &years.highs).high <= target
}

// The range of the quotes first: it costs next to nothing.
fn meets(n: Numbers, block: &Block, target: u64, s: i64) -> bool
    requires { nat_abs s ≤ 500 }
    ensures { Meets (as_numbers n) block.now target s result }
{
    let Some(moved) = shift_numbers(n, s) else {
        return false;
    };
    costs_at_most(moved, block, target)
}

// ---- the search

// The first that does ends it.
fn search(n: Numbers, block: &Block, target: u64) -> Result<i64, Ground>
    ensures { Searches (as_numbers n) block.now target result }
{
    for s in -500..=500 {
        if meets(n, block, target, s) {
            return Ok(s);
        }
    }
    Err(Ground::NoShift)
}

// The sheet's grounds before the list's.
fn shift_block(sheet: &[u8], block: Result<Block, Ground>, target: u64) -> Result<i64, Ground>
    ensures { ShiftsBlock sheet.now block target result }
{
    let numbers = sheet::read(sheet)?;
    search(numbers, &block?, target)
}

// The list as structs, a year and cents each.
pub fn shift_of(sheet: &[u8], flows: &[Flow], target: u64) -> Result<i64, Ground>
    ensures { ShiftedAs sheet.now (as_flows flows.now) target result }
{
    shift_block(sheet, block::block_of(flows), target)
}

// The same list as plain numbers, year and cents in turn.
pub fn shift_of_numbers(sheet: &[u8], numbers: &[u64], target: u64) -> Result<i64, Ground>
    ensures { ShiftedAs sheet.now (paired numbers.now) target result }
{
    shift_block(sheet, block::block_of_numbers(numbers), target)
}
