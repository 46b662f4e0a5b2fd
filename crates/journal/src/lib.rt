// Records, calls written as bytes: the call at the front of some bytes, made on a book.
#![tactic(auto)]

mod kind;

ghost use Rattle.std.specs.Prelude.{◌≡◌, ◌≤◌, length};
ghost use Rattle.ledger.specs.Calls.{withdrawal};
ghost use Rattle.journal.specs.Journal.{record_of, post_front, turn_front, look_front};
ghost use Rattle.journal.specs.Made.{Asks, MakesFront, MakesAtDesk, Makes};
ghost use Rattle.journal.specs.Kinds.{kind_at, word_at, front_by};

use big_endian::two_bytes;
use book::{Book, Finding, Wanted, Which};
use grounds::Ground;
use kind::Kind;

// What a call was answered; a look-up with its year.
#[derive(Clone, Copy)]
pub enum Reply {
    Posted(Result<u64, Ground>),
    Turned(Result<u64, Ground>),
    Withdrawn(Result<(), Ground>),
    Looked(u64, Result<Finding, Ground>),
}

// Why nothing was called: no whole record stands there, or its kind is not known.
#[derive(Clone, Copy, PartialEq, Eq)]
pub enum NoCall {
    CutShort,
    NotKnown,
}

// With the record's length.
#[derive(Clone, Copy)]
pub struct Made {
    pub reply: Reply,
    pub taken: usize,
}

// A look-up's record that stands whole.
#[derive(Clone, Copy)]
pub struct Asked {
    pub year: u64,
    pub answer: Result<Finding, Ground>,
}

fn kind_of(rest: &[u8]) -> Result<Kind, NoCall>
    ensures { result ≡ kind_at rest.now }
{
    let [byte, ..] = rest else {
        return Err(NoCall::CutShort);
    };
    Kind::try_from(*byte)
}

// The two bytes behind the kind: a sheet's length, or a month.
fn word_behind(rest: &[u8]) -> Result<u64, NoCall>
    ensures { result ≡ word_at rest.now }
{
    let [_, high, low, ..] = rest else {
        return Err(NoCall::CutShort);
    };
    Ok(two_bytes(*high, *low))
}

// The sheet's length stands before it.
fn make_post(book: &mut Book, rest: &[u8]) -> Result<Made, NoCall>
    ensures { MakesFront book.old book.new rest.now (post_front rest.now) result }
{
    let end = 3 + word_behind(rest)? as usize;
    let sheet = rest.get(3..end).ok_or(NoCall::CutShort)?;
    Ok(Made {
        reply: Reply::Posted(book.post(sheet)),
        taken: end,
    })
}

fn make_turn(book: &mut Book, rest: &[u8]) -> Result<Made, NoCall>
    ensures { MakesFront book.old book.new rest.now (turn_front rest.now) result }
{
    let month = word_behind(rest)?;
    Ok(Made {
        reply: Reply::Turned(book.turn(month)),
        taken: 3,
    })
}

// The look-up at the front of some bytes, if one stands there whole. It leaves the book as it is.
pub fn ask(book: &Book, rest: &[u8]) -> Option<Asked>
    ensures { Asks book.now rest.now result }
{
    let Ok(Kind::Look) = kind_of(rest) else {
        return None;
    };
    let year = big_endian::wide(*rest.get(1)?);
    Some(Asked {
        year,
        answer: book.look_up(Which::Plain, Wanted::Factor, year),
    })
}

fn make_look(book: &mut Book, rest: &[u8]) -> Result<Made, NoCall>
    requires { kind_at rest.now ≡ Ok Kind.Look }
    ensures { MakesFront book.old book.new rest.now (look_front rest.now) result }
{
    let Asked { year, answer } = ask(book, rest).ok_or(NoCall::CutShort)?;
    Ok(Made {
        reply: Reply::Looked(year, answer),
        taken: 2,
    })
}

// The kind byte is the whole record.
fn make_withdrawal(book: &mut Book, rest: &[u8]) -> Result<Made, NoCall>
    requires { 1 ≤ length rest.now }
    ensures { MakesFront book.old book.new rest.now (record_of rest.now 1 withdrawal) result }
{
    Ok(Made {
        reply: Reply::Withdrawn(book.withdraw()),
        taken: 1,
    })
}

// A record of this kind.
fn make_kind(kind: Kind, book: &mut Book, rest: &[u8]) -> Result<Made, NoCall>
    requires { kind_at rest.now ≡ Ok kind }
    ensures { MakesFront book.old book.new rest.now (front_by kind rest.now) result }
{
    match kind {
        Kind::Post => make_post(book, rest),
        Kind::Turn => make_turn(book, rest),
        Kind::Look => make_look(book, rest),
        Kind::Withdrawal => make_withdrawal(book, rest),
    }
}

// Any bytes; a withdrawal is unknown to the desk. Where nothing is called, the book stays as it was.
pub fn make_at_desk(book: &mut Book, rest: &[u8]) -> Result<Made, NoCall>
    ensures { MakesAtDesk book.old book.new rest.now result }
{
    match kind_of(rest)? {
        Kind::Withdrawal => Err(NoCall::NotKnown),
        kind => make_kind(kind, book, rest),
    }
}

// Any bytes.
pub fn make(book: &mut Book, rest: &[u8]) -> Result<Made, NoCall>
    ensures { Makes book.old book.new rest.now result }
{
    make_kind(kind_of(rest)?, book, rest)
}
