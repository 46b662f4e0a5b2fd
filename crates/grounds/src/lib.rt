// The grounds for turning a call down, declared once: the error of every answer that can be refused.
#![tactic(auto)]

ghost use Rattle.std.specs.Prelude.{◌≡◌};
ghost use Rattle.method.specs.Grounds.{number_of, place_of};
ghost use Rattle.grounds.specs.Answers.{as_ground, refusal_number, refusal_place};

// With its place: a record, from 1, a year, or an entry of a list, from 1.
#[derive(Clone, Copy, Debug, PartialEq, Eq)]
pub enum Ground {
    WrongLength,
    WrongRecord(u64),
    OutOfRange(u64),
    NoVolume,
    AfterToldMonth,
    BeforeStandingCurve,
    LowBelowOne(u64),
    HighAboveLimit(u64),
    EndFailsTest(u64),
    BandTooWide(u64),
    MonthAboveLast,
    MonthBeforeTold,
    YearOutside,
    NoCurve,
    BufferTooShort,
    AgeAboveLimit,
    NoHighRate,
    NoPostLeft,
    UnknownProfile,
    WrongCount,
    FlowYearOutside(u64),
    CentsAboveLimit(u64),
    NoShift,
}

impl Ground {
    pub fn number(self) -> u64
        ensures { result ≡ number_of (as_ground self) }
    {
        match self {
            Ground::WrongLength => 1,
            Ground::WrongRecord(_) => 2,
            Ground::OutOfRange(_) => 3,
            Ground::NoVolume => 4,
            Ground::AfterToldMonth => 5,
            Ground::BeforeStandingCurve => 6,
            Ground::LowBelowOne(_) => 7,
            Ground::HighAboveLimit(_) => 8,
            Ground::EndFailsTest(_) => 9,
            Ground::BandTooWide(_) => 10,
            Ground::MonthAboveLast => 11,
            Ground::MonthBeforeTold => 12,
            Ground::YearOutside => 13,
            Ground::NoCurve => 14,
            Ground::BufferTooShort => 15,
            Ground::AgeAboveLimit => 16,
            Ground::NoHighRate => 17,
            Ground::NoPostLeft => 18,
            Ground::UnknownProfile => 19,
            Ground::WrongCount => 20,
            Ground::FlowYearOutside(_) => 21,
            Ground::CentsAboveLimit(_) => 22,
            Ground::NoShift => 23,
        }
    }

    // 0 where none is named.
    pub fn place(self) -> u64
        ensures { result ≡ place_of (as_ground self) }
    {
        match self {
            Ground::WrongRecord(record) => record,
            Ground::OutOfRange(record) => record,
            Ground::LowBelowOne(year) => year,
            Ground::HighAboveLimit(year) => year,
            Ground::EndFailsTest(year) => year,
            Ground::BandTooWide(year) => year,
            Ground::FlowYearOutside(entry) => entry,
            Ground::CentsAboveLimit(entry) => entry,
            _ => 0,
        }
    }
}

// The number of the ground that turned a call down; 0 where it passed.
pub fn number<T>(answer: &Result<T, Ground>) -> u64
    ensures { result ≡ refusal_number answer.now }
{
    match answer {
        Ok(_) => 0,
        Err(g) => g.number(),
    }
}

// Its place; 0 where none is named.
pub fn place<T>(answer: &Result<T, Ground>) -> u64
    ensures { result ≡ refusal_place answer.now }
{
    match answer {
        Ok(_) => 0,
        Err(g) => g.place(),
    }
}
