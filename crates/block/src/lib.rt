// The cash flows of a block of policies, added by the year, and their value.
#![tactic(auto)]

ghost use Rattle.std.specs.Prelude.{◌≡◌, List, [], ◌∷◌, ℕ, ◌+◌, ◌*◌, ◌<◌, ◌≤◌, length};
ghost use Rattle.std.specs.declared.result.Result.TheVariants.{Ok};
ghost use Rattle.fraction.specs.Rounding.{U, round_ℕ};
ghost use Rattle.valuation.specs.Block.{flows_checked};
ghost use Rattle.grounds.specs.Answers.{as_answered};
ghost use Rattle.block.specs.Views.{as_flow, as_flows, paired, totals_from, block_of, Held, Totals, Lists, weighed, Values};

use grounds::Ground;
use rounding::Pair;
use std::marker::Model;

// A year and whole cents.
#[derive(Clone, Copy)]
pub struct Flow {
    pub year: u64,
    pub cents: u64,
}

// The cents of years 1 to 150, each year's entries added. No other crate can build one: it is always of a list that was accepted.
#[derive(Clone, Copy)]
pub struct Block {
    totals: [u64; 150],
}

impl Model for Block {
    ghost Value = { List ℕ };

    ghost view = { λ b. b.totals };

    ghost invariant = { λ b. Totals b.totals };

    ghost inverse = { λ ts. record { totals = ts } };
}

// ---- the list

// 21 before 22, with the entry, from 1.
fn entered(totals: &mut [u64; 150], at: usize, flow: Flow) -> Result<(), Ground>
    requires { (at < 1_000) × Held at totals.old }
    ensures checked { as_answered result ≡ flows_checked (at + 1) (as_flow flow ∷ []) }
    ensures totals { result ≡ Ok tt → totals.new ≡ totals_from totals.old (as_flow flow ∷ []) }
{
    let entry = at as u64 + 1;
    if !(1..=150).contains(&flow.year) {
        return Err(Ground::FlowYearOutside(entry));
    }
    if 1_000_000_000 < flow.cents {
        return Err(Ground::CentsAboveLimit(entry));
    }
    totals[(flow.year - 1) as usize] += flow.cents;
    Ok(())
}

// So many entries in their order, each asked for by its place from 0; 20 comes before the grounds of an entry.
fn listed<F: Fn(usize) -> Flow>(count: usize, flow_at: F) -> Result<Block, Ground>
    requires { (i : ℕ) → i < count → F.pre flow_at i }
    ensures { (fs : List _) → Lists (F.post flow_at) count fs → as_answered result ≡ block_of fs }
{
    if !(1..=1_000).contains(&count) {
        return Err(Ground::WrongCount);
    }
    let mut totals: [u64; 150] = [0; 150];
    for i in 0..count {
        entered(&mut totals, i, flow_at(i))?;
    }
    Ok(Block { totals })
}

pub fn block_of(flows: &[Flow]) -> Result<Block, Ground>
    ensures { as_answered result ≡ block_of (as_flows flows.now) }
{
    listed(flows.len(), |i| flows[i])
}

// The same list as plain numbers, year and cents in turn, for C. An odd count is of no list.
pub fn block_of_numbers(numbers: &[u64]) -> Result<Block, Ground>
    ensures { as_answered result ≡ block_of (paired numbers.now) }
{
    if numbers.len() % 2 != 0 {
        return Err(Ground::WrongCount);
    }
    listed(
        numbers.len() / 2,
        |i| Flow {
            year: numbers[2 * i],
            cents: numbers[2 * i + 1],
        },
    )
}

// ---- the value

// Sums of products, those of the millions of cents apart from those of the rest, so that neither wraps.
#[derive(Clone, Copy)]
struct Products {
    millions: u64,
    rest: u64,
}

fn multiplied(totals: &[u64], factors: &[u32]) -> Products
    requires { Totals totals.now × (length factors.now ≡ 150) }
    ensures sum { result.millions * 1_000_000 + result.rest ≡ weighed totals.now factors.now 150 }
    ensures small { result.rest ≤ 150 * 1_000_000 * 4_294_967_296 }
{
    let mut millions: u64 = 0;
    let mut rest: u64 = 0;
    for (total, factor) in totals.iter().zip(factors) {
        let factor = u64::from(*factor);
        millions += total / 1_000_000 * factor;
        rest += total % 1_000_000 * factor;
    }
    Products { millions, rest }
}

// A thousand of the millions' sum is a U, so its thousands are whole cents; what is below them is rounded.
fn rounded(totals: &[u64], factors: &[u32], up: bool) -> u64
    requires { Totals totals.now × (length factors.now ≡ 150) }
    ensures { result ≡ round_ℕ up (weighed totals.now factors.now 150) U }
{
    let sum = multiplied(totals, factors);
    let below = sum.millions % 1_000 * 1_000_000 + sum.rest;
    sum.millions / 1_000 + rounding::quotient(below, 1_000_000_000, up)
}

impl Block {
    // On lent lows and highs of years 1 to 150.
    pub fn value_on(&self, lows: &[u32], highs: &[u32]) -> Pair
        requires { (length lows.now ≡ 150) × (length highs.now ≡ 150) }
        ensures { Values self.now lows.now highs.now result }
    {
        Pair {
            low: rounded(&self.totals, lows, false),
            high: rounded(&self.totals, highs, true),
        }
    }
}
