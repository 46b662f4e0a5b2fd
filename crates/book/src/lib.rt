// The dated curve book: its age limit, the told month, the curves that stand with their sums, and the sheets that withdrawals bring back. No other crate
// can build a book or read one, so each came from a list of calls that began with `fresh`.
#![tactic(auto)]

ghost use Rattle.std.specs.Prelude.{◌≡◌, List, ◌-◌, ◌≤◌, IfOk, OnErr, option_copied};
ghost use Rattle.method.specs.Curve.{some, answer};
ghost use Rattle.zero_rates.specs.Rates.{zero_rates};
ghost use Rattle.ledger.specs.Book.{fresh, named, sums_named, post, turn, if_worked, withdraw, look_up, page, value};
ghost use Rattle.grounds.specs.Answers.{outcome_of, as_answered};
ghost use Rattle.curve.specs.Curves.{as_curve, as_curves};
ghost use Rattle.sums.specs.Views.{as_sums, curve_in, sums_in};
ghost use Rattle.block.specs.Views.{as_flows, paired, block_of};
ghost use Rattle.book.specs.Views.{as_which, as_wanted, as_standing, as_book, as_finding, as_value, booked_by, withdrawn_by, paged_by};
ghost use Rattle.book.specs.Steps.{opened, found_at};

use block::{Block, Flow};
use curve::{Curve, Curves};
use grounds::Ground;
use history::History;
use sums::{Summed, Totalled};

const LAST_MONTH: u64 = 2_399;

// No curve can be older, as no later month can be told.
pub const LARGEST_AGE_LIMIT: u64 = LAST_MONTH;

const PAGE_LENGTH: usize = 1_505;

#[derive(Clone, Copy)]
pub struct Book {
    age_limit: u64,
    told: u64,
    standing: Option<Summed>,
    history: History,
}

// The curve that a look-up or a page names.
#[derive(Clone, Copy)]
pub enum Which {
    Plain,
    Adjusted,
}

// What a look-up asks for: the year's factor, or the sum of the factors of years 1 to it.
#[derive(Clone, Copy)]
pub enum Wanted {
    Factor,
    Sum,
}

// A low and a high, the year's zero rates, in hundred-thousandths of one, and the month and the age of the curve.
#[derive(Clone, Copy)]
pub struct Finding {
    pub low: u64,
    pub high: u64,
    pub month: u64,
    pub age: u64,
    pub low_rate: i64,
    pub high_rate: i64,
}

// Of a block, in cents, with the month and the age of the curve.
#[derive(Clone, Copy)]
pub struct Value {
    pub low: u64,
    pub high: u64,
    pub month: u64,
    pub age: u64,
}

// ---- a sheet's curves

#[tactic(auto, unfolding(method::specs::Curve::answer_with))]
fn answer(sheet: &[u8]) -> Result<Curves, Ground>
    ensures { outcome_of as_curves result ≡ answer sheet.now }
{
    curve::from_numbers(sheet::read(sheet)?)
}

// The curves of a sheet and their sums, if it works.
fn worked(sheet: &[u8]) -> Option<Summed>
    ensures { as_standing result ≡ if_worked (answer sheet.now) }
{
    answer(sheet).ok().map(sums::with_sums)
}

// ---- the calls that may change a book: one that is turned down leaves it as it was

impl Book {
    // Any number makes a book; one above the largest limit, a book with that.
    pub fn fresh(age_limit: u64) -> Book
        ensures { as_book result ≡ fresh age_limit }
    {
        Book {
            age_limit: age_limit.min(LARGEST_AGE_LIMIT),
            told: 0,
            standing: None,
            history: History::no_posts(),
        }
    }

    // 19 and 1 to 4 on the bytes, 5 and 6, then 7 to 10 on the numbers.
    #[tactic(auto, using(crate::proofs::Booking::read_fits), unfolding(ledger::specs::Book::post, ledger::specs::Book::post_outcome))]
    pub fn post(&mut self, sheet: &[u8]) -> Result<u64, Ground>
        ensures booked { booked_by self.new result ≡ post (as_book self.old) sheet.now }
        ensures kept { OnErr result (self.new ≡ self.old) }
    {
        let numbers = sheet::read(sheet)?;
        if self.told < numbers.month {
            return Err(Ground::AfterToldMonth);
        }
        let standing = self.standing.as_ref();
        if standing.is_some_and(|k| numbers.month < k.plain.curve.month) {
            return Err(Ground::BeforeStandingCurve);
        }
        let curves = curve::from_numbers(numbers)?;
        self.standing = Some(sums::with_sums(curves));
        self.history.with_post(sheet);
        Ok(curves.plain.month)
    }

    // 11, 12.
    #[tactic(auto, unfolding(ledger::specs::Book::turn, ledger::specs::Book::turn_outcome))]
    pub fn turn(&mut self, month: u64) -> Result<u64, Ground>
        ensures booked { booked_by self.new result ≡ turn (as_book self.old) month }
        ensures kept { OnErr result (self.new ≡ self.old) }
    {
        if LAST_MONTH < month {
            return Err(Ground::MonthAboveLast);
        }
        if month < self.told {
            return Err(Ground::MonthBeforeTold);
        }
        self.told = month;
        Ok(month)
    }

    // 18. The sheet that stands again is worked again.
    #[tactic(auto, unfolding(ledger::specs::Book::withdraw))]
    pub fn withdraw(&mut self) -> Result<(), Ground>
        ensures withdrawn { withdrawn_by self.new result ≡ withdraw (as_book self.old) }
        ensures kept { OnErr result (self.new ≡ self.old) }
    {
        self.history.way_back()?;
        self.standing = self.history.sheet.and_then(|kept| worked(kept.sheet()));
        Ok(())
    }
}

// ---- what may be shown of a curve

impl Book {
    // An adjusted curve stands only beside a plain one.
    fn named(&self, which: Which) -> Option<&Totalled>
        ensures curve { curve_in (option_copied result) ≡ named (as_which which) (as_book self.now).standing }
        ensures sums { sums_in (option_copied result) ≡ sums_named (as_which which) (as_book self.now).standing }
    {
        let standing = self.standing.as_ref()?;
        match which {
            Which::Plain => Some(&standing.plain),
            Which::Adjusted => standing.adjusted.as_ref(),
        }
    }

    // Told month less sheet month.
    fn age_of(&self, curve: &Curve) -> u64
        ensures { result ≡ self.now.told - curve.now.month }
    {
        self.told.saturating_sub(curve.month)
    }

    // 14 while no curve stands, 16 where it is older than the limit.
    fn open(&self, which: Which) -> Result<&Totalled, Ground>
        ensures curve { outcome_of (λ t. as_curve t.now.curve) result ≡ opened (as_book self.now) (as_which which) }
        ensures sums { IfOk result (λ t. sums_named (as_which which) (as_book self.now).standing ≡ some (as_sums t.now.sums)) }
    {
        let named = self.named(which).ok_or(Ground::NoCurve)?;
        if self.age_limit < self.age_of(&named.curve) {
            return Err(Ground::AgeAboveLimit);
        }
        Ok(named)
    }

    // What the curve has for a year, or 17.
    fn found(&self, curve: &Curve, year: u64) -> Result<Finding, Ground>
        requires { (1 ≤ year) × (year ≤ 150) }
        ensures { outcome_of as_finding result ≡ found_at (as_curve curve.now) self.now.told year }
    {
        let i = (year - 1) as usize;
        let low = curve.years.lows[i] as u64;
        let high = curve.years.highs[i] as u64;
        let rates = rate_search::zero_rates(year, low, high)?;
        Ok(Finding {
            low,
            high,
            month: curve.month,
            age: self.age_of(curve),
            low_rate: rates.low,
            high_rate: rates.high,
        })
    }

    // On the plain curve, and the curve before the list: 14 and 16, then 20 to 22.
    #[tactic(auto, using(crate::proofs::Booking::list_refused), unfolding(ledger::specs::Book::value_in))]
    fn valued(&self, list: Result<Block, Ground>) -> Result<Value, Ground>
        ensures { (fs : List _) → as_answered list ≡ block_of fs → outcome_of as_value result ≡ value (as_book self.now) fs }
    {
        let curve = &self.open(Which::Plain)?.curve;
        let worth = list?.value_on(&curve.years.lows, &curve.years.highs);
        Ok(Value {
            low: worth.low,
            high: worth.high,
            month: curve.month,
            age: self.age_of(curve),
        })
    }
}

// ---- the calls that leave a book as it is

impl Book {
    // 13, 14, 16, 17. The sum to the year stands in place of the factor where it is asked for.
    #[tactic(auto, unfolding(ledger::specs::Book::look_in))]
    pub fn look_up(&self, which: Which, wanted: Wanted, year: u64) -> Result<Finding, Ground>
        ensures { outcome_of as_finding result ≡ look_up (as_book self.now) (as_which which) (as_wanted wanted) year }
    {
        if year < 1 || 150 < year {
            return Err(Ground::YearOutside);
        }
        let shown = self.open(which)?;
        let finding = self.found(&shown.curve, year)?;
        match wanted {
            Wanted::Factor => Ok(finding),
            Wanted::Sum => Ok(Finding {
                low: sums::to_year(&shown.sums.lows, year),
                high: sums::to_year(&shown.sums.highs, year),
                ..finding
            }),
        }
    }

    // 14, 16, 15.
    #[tactic(auto, unfolding(ledger::specs::Book::page_outcome))]
    pub fn page(&self, which: Which, out: &mut [u8]) -> Result<(), Ground>
        ensures { paged_by result out.new ≡ page (as_book self.now) (as_which which) out.old }
    {
        let curve = &self.open(which)?.curve;
        if out.len() < PAGE_LENGTH {
            return Err(Ground::BufferTooShort);
        }
        page_writer::write_to(
            curve.month,
            self.age_of(curve),
            &curve.years.lows,
            &curve.years.highs,
            150,
            out,
        );
        Ok(())
    }

    // 14, 16, 20 to 22. The list as structs, a year and cents each.
    pub fn value_of(&self, flows: &[Flow]) -> Result<Value, Ground>
        ensures { outcome_of as_value result ≡ value (as_book self.now) (as_flows flows.now) }
    {
        self.valued(block::block_of(flows))
    }

    // The same list as plain numbers, year and cents in turn.
    pub fn value_of_numbers(&self, numbers: &[u64]) -> Result<Value, Ground>
        ensures { outcome_of as_value result ≡ value (as_book self.now) (paired numbers.now) }
    {
        self.valued(block::block_of_numbers(numbers))
    }
}
