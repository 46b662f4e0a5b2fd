// The quotes in the order of their maturities. Apart from lib.rt, because its clauses cite
// the view of Liquid, which a file that declares Liquid with its invariant does not import at its head.
#![tactic(auto)]

ghost use Rattle.std.specs.Prelude.{◌≡◌};
ghost use Rattle.method.specs.Quotes.{bootstrap};
ghost use Rattle.grounds.specs.Answers.{outcome_of};
ghost use Rattle.bootstrap.specs.Liquids.{as_bootstrap, as_quotes, QuotesClimb};

use crate::{Liquid, Quotes};
use grounds::Ground;

// Up to the first ground that applies.
pub fn bootstrap(q: Quotes) -> Result<Liquid, Ground>
    requires { QuotesClimb q }
    ensures outcome { outcome_of as_bootstrap result ≡ bootstrap (as_quotes q) }
{
    let mut liquid = Liquid::fresh();
    for (maturity, rate) in q.maturities[..q.count].iter().zip(&q.rates[..q.count]) {
        liquid.years_to(*maturity, *rate as i64)?;
    }
    Ok(liquid)
}
