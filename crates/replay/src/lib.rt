// The book after the calls of a journal, made with an age limit, and what is then answered: for programs in Rattle, and for those in C as `replay_c`
// exports it. For C also the shift that meets a target, for which there is no book.
#![tactic(auto)]

ghost use Rattle.std.specs.Prelude.{◌≡◌, ◌++◌, ◌+◌, ◌*◌, ◌≤◌, length, drop};
ghost use Rattle.method.specs.Grounds.{number_of, place_of};
ghost use Rattle.shift.specs.Meaning.{ShiftTells};
ghost use Rattle.ledger.specs.Calls.{look_at, page_into, value_of};
ghost use Rattle.ledger.specs.Tells.{Tells};
ghost use Rattle.ledger.specs.Demands.{Demand3, Withdraws};
ghost use Rattle.grounds.specs.Answers.{as_ground, outcome_of, refusal_number, refusal_place};
ghost use Rattle.block.specs.Views.{paired};
ghost use Rattle.book.specs.Views.{as_which, as_wanted, as_book, as_finding, as_value, paged_by};
ghost use Rattle.journal.specs.Journal.{front, decode};
ghost use Rattle.journal.specs.Replies.{reply_to};
ghost use Rattle.journal.specs.Made.{as_replied};
ghost use Rattle.replay.specs.Returned.{book_after, look_after, page_after, value_after, look_by, count_of, by_kind, wanted_by, dated_bytes, found_bytes};
ghost use Rattle.replay.specs.Returned.{returned, look_returned, page_returned, value_returned, shift_by, shift_returned, replied, reply_place};

use big_endian::{put, twos_complement};
use book::{Book, Finding, Value, Wanted, Which};
use grounds::Ground;
use journal::{Made, NoCall, Reply};

// Makes all calls, from a fresh book of this age limit on.
pub fn replay(age_limit: u64, calls: &[u8]) -> Book
    ensures { as_book result ≡ book_after age_limit calls.now }
{
    let mut book = Book::fresh(age_limit);
    let mut rest = calls;
    while let Ok(made) = journal::make(&mut book, rest) {
        rest = &rest[made.taken..];
    }
    book
}

// What a look-up answers after these calls.
pub fn look_after(
    age_limit: u64,
    calls: &[u8],
    which: Which,
    wanted: Wanted,
    year: u64,
) -> Result<Finding, Ground>
    ensures outcome { outcome_of as_finding result ≡ look_after age_limit calls.now (as_which which) (as_wanted wanted) year }
    ensures told { Tells age_limit (count_of calls.now) (look_at (as_which which) (as_wanted wanted) year) (outcome_of as_finding result) }
{
    replay(age_limit, calls).look_up(which, wanted, year)
}

// The page after these calls, written into a lent buffer.
pub fn page_after(age_limit: u64, calls: &[u8], which: Which, out: &mut [u8]) -> Result<(), Ground>
    ensures paged { paged_by result out.new ≡ page_after age_limit calls.now (as_which which) out.old }
    ensures told { Tells age_limit (count_of calls.now) (page_into (as_which which) out.old) (paged_by result out.new) }
{
    replay(age_limit, calls).page(which, out)
}

// What a valuation of plain numbers, year and cents in turn, answers after these calls.
pub fn value_after(age_limit: u64, calls: &[u8], numbers: &[u64]) -> Result<Value, Ground>
    ensures outcome { outcome_of as_value result ≡ value_after age_limit calls.now numbers.now }
    ensures told { Tells age_limit (count_of calls.now) (value_of (paired numbers.now)) (outcome_of as_value result) }
{
    replay(age_limit, calls).value_of_numbers(numbers)
}

// ---- the same for programs in C

// Kinds are bits, and results and refusals numbers of 64 bits, because the C interface has no others.

// Bit 0 names the adjusted curve.
fn which_by(kind: u64) -> Which
    ensures { as_which result ≡ by_kind kind }
{
    if kind % 2 == 1 {
        Which::Adjusted
    } else {
        Which::Plain
    }
}

// Bit 1 asks for the sum; all others are ignored.
fn wanted_by(kind: u64) -> Wanted
    ensures { as_wanted result ≡ wanted_by kind }
{
    if kind / 2 % 2 == 1 {
        Wanted::Sum
    } else {
        Wanted::Factor
    }
}

// What starts every reply: each number straight to its own bytes.
fn put_dated(low: u64, high: u64, month: u64, age: u64, out: &mut [u8])
    requires { 20 ≤ length out.old }
    ensures { out.new ≡ dated_bytes low high month age ++ drop 20 out.old }
{
    put(low, 8, 0, out);
    put(high, 8, 8, out);
    put(month, 2, 16, out);
    put(age, 2, 18, out);
}

// A look-up's reply.
fn put_found(f: Finding, out: &mut [u8])
    requires { 28 ≤ length out.old }
    ensures { out.new ≡ found_bytes (as_finding f) ++ drop 28 out.old }
{
    put_dated(f.low, f.high, f.month, f.age, out);
    put(twos_complement(f.low_rate), 4, 20, out);
    put(twos_complement(f.high_rate), 4, 24, out);
}

// A refusal as one number. A place is at most 1,000, an entry of a list.
fn packed(g: Ground) -> u64
    requires { place_of (as_ground g) ≤ 1_000 }
    ensures { result ≡ number_of (as_ground g) + 256 * place_of (as_ground g) }
{
    g.number() + 256 * g.place()
}

// 0 where the call passed.
fn answered<T>(answer: &Result<T, Ground>) -> u64
    requires { refusal_place answer.now ≤ 1_000 }
    ensures { result ≡ refusal_number answer.now + 256 * refusal_place answer.now }
{
    match answer {
        Ok(_) => 0,
        Err(g) => packed(*g),
    }
}

// Beyond every ground's number, for the C interface.
const NO_CALL: u64 = 255;

// Of one more call; `NO_CALL` where none was made.
fn replied(made: Result<Made, NoCall>) -> u64
    requires { reply_place (as_replied made) ≤ 1_000 }
    ensures { result ≡ replied (as_replied made) }
{
    let Ok(made) = made else {
        return NO_CALL;
    };
    match made.reply {
        Reply::Posted(answer) => answered(&answer),
        Reply::Turned(answer) => answered(&answer),
        Reply::Withdrawn(answer) => answered(&answer),
        Reply::Looked(_, answer) => answered(&answer),
    }
}

// A buffer that is too short is tried last.
#[tactic(auto, using(ledger::proofs::Theorem::demand_3))]
pub fn tuyqorem_look_after(
    age_limit: u64,
    calls: &[u8],
    kind: u64,
    year: u64,
    out: &mut [u8],
) -> u64
    ensures returned { returned result out.new ≡ look_returned (look_by age_limit calls.now kind year) out.old }
    ensures told { Demand3 age_limit (decode calls.now) }
{
    match look_after(age_limit, calls, which_by(kind), wanted_by(kind), year) {
        Err(g) => packed(g),
        Ok(_) if out.len() < 28 => packed(Ground::BufferTooShort),
        Ok(finding) => {
            put_found(finding, out);
            0
        }
    }
}

#[tactic(auto, using(ledger::proofs::Theorem::demand_3))]
pub fn tuyqorem_page_after(age_limit: u64, calls: &[u8], kind: u64, out: &mut [u8]) -> u64
    ensures returned { returned result out.new ≡ page_returned (page_after age_limit calls.now (by_kind kind) out.old) }
    ensures told { Demand3 age_limit (decode calls.now) }
{
    answered(&page_after(age_limit, calls, which_by(kind), out))
}

// Year and cents in turn; an odd count is no list.
#[tactic(auto, using(ledger::proofs::Theorem::demand_3))]
pub fn tuyqorem_value_after(age_limit: u64, calls: &[u8], flows: &[u64], out: &mut [u8]) -> u64
    ensures returned { returned result out.new ≡ value_returned (value_after age_limit calls.now flows.now) out.old }
    ensures told { Demand3 age_limit (decode calls.now) }
{
    match value_after(age_limit, calls, flows) {
        Err(g) => packed(g),
        Ok(_) if out.len() < 20 => packed(Ground::BufferTooShort),
        Ok(value) => {
            put_dated(value.low, value.high, value.month, value.age, out);
            0
        }
    }
}

// Of a sheet and a list by themselves: no book is asked.
pub fn tuyqorem_shift(sheet: &[u8], flows: &[u64], target: u64, out: &mut [u8]) -> u64
    ensures returned { returned result out.new ≡ shift_returned (shift_by sheet.now flows.now target) out.old }
    ensures told { ShiftTells sheet.now (paired flows.now) target (shift_by sheet.now flows.now target) }
{
    match shift_search::shift_of_numbers(sheet, flows, target) {
        Err(g) => packed(g),
        Ok(_) if out.len() < 2 => packed(Ground::BufferTooShort),
        Ok(shift) => {
            put(twos_complement(shift), 2, 0, out);
            0
        }
    }
}

// The answer of one more call, the first record of `call`; 255 where that is no whole record.
pub fn tuyqorem_answer_after(age_limit: u64, calls: &[u8], call: &[u8]) -> u64
    ensures returned { result ≡ replied (reply_to (book_after age_limit calls.now) (front call.now)) }
    ensures told { Withdraws age_limit (decode calls.now) }
{
    let mut book = replay(age_limit, calls);
    replied(journal::make(&mut book, call))
}
