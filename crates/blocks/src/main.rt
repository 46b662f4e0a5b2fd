// Replays the journal of standard input on books with age limits of 5,000, 3 and 2 months, and values seven lists of three cash flows on each: writes, a
// line for each, the ground's number, or 0, and its place, then low, high, month and age. The file `stdout` is what the second implementation writes.
#![tactic(auto)]

ghost use Rattle.std.specs.Prelude.{◌≡◌, [], ◌∷◌};
ghost use Rattle.ledger.specs.Book.{value};
ghost use Rattle.grounds.specs.Answers.{outcome_of};
ghost use Rattle.block.specs.Views.{as_flows};
ghost use Rattle.book.specs.Views.{as_book, as_value};

use block::Flow;
use book::{Book, Value};
use grounds::Ground;
use std::io;

// What is written beside a refusal.
const NOTHING: Value = Value {
    low: 0,
    high: 0,
    month: 0,
    age: 0,
};

// An array of its own is lent as a slice of structs.
fn value_three(book: &Book, x: Flow, y: Flow, z: Flow) -> Result<Value, Ground>
    ensures { outcome_of as_value result ≡ value (as_book book.now) (as_flows (x ∷ y ∷ z ∷ [])) }
{
    book.value_of(&[x, y, z])
}

fn show(rt: &impl Print, answer: Result<Value, Ground>) -> io::Result<()> {
    let number = grounds::number(&answer);
    let place = grounds::place(&answer);
    let Value {
        low,
        high,
        month,
        age,
    } = answer.unwrap_or(NOTHING);
    println!(rt; "{number} {place} {low} {high} {month} {age}")
}

fn flow(year: u64, cents: u64) -> Flow {
    Flow { year, cents }
}

fn value(rt: &impl Print, book: &Book, x: Flow, y: Flow, z: Flow) -> io::Result<()> {
    show(rt, value_three(book, x, y, z))
}

// A year that stands twice; the largest of both; the first and the last year with no cents; then 21, 22, 21 before 22, and the first of two.
fn values(rt: &impl Print, age_limit: u64, calls: &[u8]) -> io::Result<()> {
    let book = &replay::replay(age_limit, calls);
    value(rt, book, flow(1, 100), flow(2, 100), flow(20, 100_000))?;
    value(rt, book, flow(20, 60_000), flow(7, 1), flow(20, 40_000))?;
    value(rt, book, flow(150, 1_000_000_000), flow(1, 0), flow(150, 0))?;
    value(rt, book, flow(1, 1), flow(151, 1), flow(0, 1))?;
    value(rt, book, flow(1, 1), flow(2, 2), flow(3, 1_000_000_001))?;
    value(rt, book, flow(0, 1_000_000_001), flow(1, 1), flow(1, 1))?;
    value(rt, book, flow(1, 1_000_000_001), flow(0, 1), flow(1, 1))
}

fn main(rt: HostRuntime) -> io::Result<()> {
    let mut buffer = [0u8; 65_536];
    let read = input::fill(&mut rt.stdin(), &mut buffer)?;
    for age_limit in [5_000, 3, 2] {
        values(&rt, age_limit, &buffer[..read])?;
    }
    Ok(())
}
