// Reads a typed sheet of any bytes: its numbers, or the first of grounds 19 and 1 to 4.
#![tactic(auto)]

ghost use Rattle.std.specs.Prelude.{◌≡◌, cond, map, ◌+◌, ◌-◌, ◌^◌, ◌<◌, ◌≤◌, ltb, pos, nat_abs, length, take, get_or, unwrap_or, is_some};
ghost use Rattle.method.specs.Sheet.{kind_byte, maturity_bytes, number_bytes, body_length, maturities, smoothing_year, adjustable};
ghost use Rattle.method.specs.Sheet.{names_profile, profile_of, profile_known, layout_of, size_of, slots_of, slot_at};
ghost use Rattle.method.specs.Sheet.{body_of, twos_complement16, reading, number_of_record, right_record, in_range, first_failure};
ghost use Rattle.method.specs.Sheet.{month_index, volume_index, ultimate_index, rate, total, numbers_of, read_sheet};
ghost use Rattle.method.specs.Grounds.{done, refused, unknown_profile};
ghost use Rattle.method.specs.Ranges.{NumbersInRange};
ghost use Rattle.grounds.specs.Answers.{outcome_of};
ghost use Rattle.sheet.specs.Views.{as_profile, as_layout, as_kind, as_slot, as_numbers};
ghost use Rattle.sheet.specs.Records.{MarketOf, Named, Due, end_of, in_kind, found, AllInside, Run};

mod numbers;

use grounds::Ground;
pub use numbers::Numbers;

// The euro, or a market that smooths from 10 or from 15.
#[derive(Clone, Copy, Debug, PartialEq, Eq)]
pub enum Profile {
    Euro,
    FromTen,
    FromFifteen,
}

// How many of the maturities a market quotes, and which of them, from 0, is the smoothing year.
#[derive(Clone, Copy)]
pub struct Market {
    pub quotes: usize,
    pub smoothing: usize,
}

// Which records a sheet has: whether the profile's stands first, and the profile; whether the phase-in's follows the limit's, and whether
// the adjustment's stands last. `led` stands beside the profile because the specification tries each ground on the whole sheet.
#[derive(Clone, Copy)]
pub struct Layout {
    pub led: bool,
    pub profile: Profile,
    pub phased: bool,
    pub adjusts: bool,
}

#[derive(Clone, Copy, Debug, PartialEq, Eq)]
pub enum Kind {
    Month,
    Rate,
    Volume,
    Ultimate,
    Limit,
    PhaseIn,
    Adjustment,
    Profile,
}

// What is due at one place of the sheet: a kind, and a maturity, 0 where the kind has none, as the specification's slot has it.
#[derive(Clone, Copy)]
pub struct Entry {
    pub kind: Kind,
    pub maturity: u64,
}

// The same, with the byte at which the record starts.
#[derive(Clone, Copy)]
pub struct Slot {
    pub due: Entry,
    pub start: usize,
}

// What a kind fixes: its byte, and how many bytes of the body are the maturity's and how many the number's.
#[derive(Clone, Copy)]
struct Form {
    byte: u8,
    maturity: usize,
    number: usize,
}

// One record: whether its kind and maturity are due, whether its number is in range, the number, and the byte after the record.
// A number stands beside a failed test because the specification tries each ground on the whole sheet.
#[derive(Clone, Copy)]
struct Reading {
    right: bool,
    inside: bool,
    number: i64,
    next: usize,
}

// All records: the places, from 1, of the first wrong one and of the first number outside. As many numbers count as the layout has records.
#[derive(Clone, Copy)]
struct Records {
    wrong: Option<u64>,
    outside: Option<u64>,
    numbers: [i64; 28],
}

// ---- the markets

const MATURITIES: [u8; 17] = [1, 2, 3, 4, 5, 6, 7, 8, 9, 10, 12, 15, 20, 25, 30, 40, 50];

pub fn maturity(i: usize) -> u64
    requires { i < 17 }
    ensures { result ≡ get_or maturities i 0 }
{
    big_endian::wide(MATURITIES[i])
}

impl Market {
    // As many volumes as quotes from the smoothing year on.
    pub fn volumes(self) -> usize
        requires { self.smoothing ≤ self.quotes }
        ensures { result ≡ self.quotes - self.smoothing }
    {
        self.quotes - self.smoothing
    }
}

impl Profile {
    pub fn market(self) -> Market
        ensures { MarketOf (as_profile self) result }
    {
        match self {
            Profile::Euro => Market {
                quotes: 17,
                smoothing: 12,
            },
            Profile::FromTen => Market {
                quotes: 10,
                smoothing: 9,
            },
            Profile::FromFifteen => Market {
                quotes: 12,
                smoothing: 11,
            },
        }
    }

    pub fn smoothing_year(self) -> u64
        ensures { result ≡ smoothing_year (as_profile self) }
    {
        maturity(self.market().smoothing)
    }

    // An adjustment goes with the euro only.
    fn may_adjust(self) -> bool
        ensures { result ≡ adjustable (as_profile self) }
    {
        matches!(self, Profile::Euro)
    }
}

// By its code; any other is turned down (19).
impl TryFrom<u8> for Profile {
    type Error = Ground;

    ghost try_from_gives = { Named };

    fn try_from(code: u8) -> Result<Self, Ground> {
        match code {
            1 => Ok(Profile::Euro),
            2 => Ok(Profile::FromTen),
            3 => Ok(Profile::FromFifteen),
            _ => Err(Ground::UnknownProfile),
        }
    }
}

// ---- the layout

fn names_profile(sheet: &[u8]) -> bool
    ensures { result ≡ names_profile sheet.now }
{
    sheet.first() == Some(&0x08)
}

// 19, or the profile that is named; the euro where none is, and on a lone hex 08.
fn profile_of(sheet: &[u8]) -> Result<Profile, Ground>
    ensures { outcome_of as_profile result ≡ cond (profile_known sheet.now) (done (profile_of sheet.now)) (refused unknown_profile) }
{
    match sheet {
        [0x08, code, ..] => Profile::try_from(*code),
        _ => Ok(Profile::Euro),
    }
}

// What a record adds where it stands.
fn if_stands(stands: bool, n: usize) -> usize
    ensures { (result ≡ cond stands n 0) × (result ≤ n) }
{
    if stands { n } else { 0 }
}

// By the bytes alone: past the records that every sheet of the market has stands one more, the adjustment's where the market may have it and
// the kind byte there is its own; past that one, both.
pub fn layout_of(sheet: &[u8]) -> Layout
    ensures { as_layout result ≡ layout_of sheet.now }
{
    let shortest = Layout {
        led: names_profile(sheet),
        profile: profile_of(sheet).unwrap_or(Profile::Euro),
        phased: false,
        adjusts: false,
    };
    let first = shortest.size();
    if sheet.len() <= first {
        return shortest;
    }
    if !shortest.profile.may_adjust() {
        return Layout {
            phased: true,
            ..shortest
        };
    }
    if first + 3 < sheet.len() {
        return Layout {
            phased: true,
            adjusts: true,
            ..shortest
        };
    }
    let named = sheet[first] == 0x07;
    Layout {
        phased: !named,
        adjusts: named,
        ..shortest
    }
}

impl Layout {
    pub fn size(self) -> usize
        ensures { (result ≡ size_of (as_layout self)) × (result ≤ 117) }
    {
        let market = self.profile.market();
        let first = if_stands(self.led, 2) + 3 + 4 * market.quotes + 6 * market.volumes() + 8;
        first + if_stands(self.phased, 3) + if_stands(self.adjusts, 3)
    }

    // The index of the month's record.
    fn month_index(self) -> usize
        ensures { (result ≡ month_index (as_layout self)) × (result ≤ 1) }
    {
        if_stands(self.led, 1)
    }

    // Of the first volume's.
    fn volume_index(self) -> usize
        ensures { (result ≡ volume_index (as_layout self)) × (result ≤ 19) }
    {
        self.month_index() + 1 + self.profile.market().quotes
    }

    // Of the ultimate rate's.
    fn ultimate_index(self) -> usize
        ensures { (result ≡ ultimate_index (as_layout self)) × (result ≤ 24) }
    {
        self.volume_index() + self.profile.market().volumes()
    }

    fn count(self) -> usize
        ensures { (result ≡ length (slots_of (as_layout self))) × (result ≤ 28) }
    {
        self.ultimate_index() + 2 + if_stands(self.phased, 1) + if_stands(self.adjusts, 1)
    }

    // Past the limit's record.
    fn last_kind(self, i: usize) -> Kind
        requires { ultimate_index (as_layout self) + 2 ≤ i }
        ensures { i < length (slots_of (as_layout self)) → as_kind result ≡ (slot_at (as_layout self) i).kind }
    {
        if self.phased && i == self.ultimate_index() + 2 {
            Kind::PhaseIn
        } else {
            Kind::Adjustment
        }
    }

    // SPECIFICATION 2.1: what is due at index i. The volumes' maturities are the market's last.
    pub fn entry_at(self, i: usize) -> Entry
        requires { i < 28 }
        ensures { Due (as_layout self) i result }
    {
        let month = self.month_index();
        let volumes = self.volume_index();
        let ultimate = self.ultimate_index();
        if i < month {
            Kind::Profile.alone()
        } else if i == month {
            Kind::Month.alone()
        } else if i < volumes {
            Entry {
                kind: Kind::Rate,
                maturity: maturity(i - month - 1),
            }
        } else if i < ultimate {
            Entry {
                kind: Kind::Volume,
                maturity: maturity(self.profile.market().smoothing + (i - volumes)),
            }
        } else if i == ultimate {
            Kind::Ultimate.alone()
        } else if i == ultimate + 1 {
            Kind::Limit.alone()
        } else {
            self.last_kind(i).alone()
        }
    }
}

// ---- what is due

impl Kind {
    // Due with no maturity.
    fn alone(self) -> Entry
        ensures { result ≡ record { kind = self; maturity = 0 } }
    {
        Entry {
            kind: self,
            maturity: 0,
        }
    }

    fn form(self) -> Form
        ensures byte { result.byte ≡ kind_byte (as_kind self) }
        ensures maturity { result.maturity ≡ maturity_bytes (as_kind self) }
        ensures number { result.number ≡ number_bytes (as_kind self) }
    {
        let (byte, maturity, number) = match self {
            Kind::Month => (0x01, 0, 2),
            Kind::Rate => (0x02, 1, 2),
            Kind::Volume => (0x03, 1, 4),
            Kind::Ultimate => (0x04, 0, 2),
            Kind::Limit => (0x05, 0, 4),
            Kind::PhaseIn => (0x06, 0, 2),
            Kind::Adjustment => (0x07, 0, 2),
            Kind::Profile => (0x08, 0, 1),
        };
        Form {
            byte,
            maturity,
            number,
        }
    }

    // Ground 3's test: the lowest number and the highest.
    pub fn admits(self, z: i64) -> bool
        ensures { result ≡ in_kind (as_kind self) z }
    {
        let range = match self {
            Kind::Month => 0..=2_399,
            Kind::Rate => -2_000..=12_000,
            Kind::Volume => 0..=1_000_000,
            Kind::Ultimate => 0..=10_000,
            Kind::Limit => 1..=100_000,
            Kind::PhaseIn => 10_000..=20_000,
            Kind::Adjustment => -500..=500,
            Kind::Profile => 1..=3,
        };
        range.contains(&z)
    }

    // A rate and an adjustment are in two's complement, any other number has no sign (SPECIFICATION 2.2).
    fn signed(self, n: u64) -> i64
        requires { n < 256 ^ number_bytes (as_kind self) }
        ensures { result ≡ reading (as_kind self) n }
    {
        match self {
            Kind::Rate | Kind::Adjustment => twos_complement(n),
            _ => n as i64,
        }
    }
}

fn twos_complement(n: u64) -> i64
    requires { n < 2 ^ 16 }
    ensures { result ≡ twos_complement16 n }
{
    let z = n as i64;
    if n < 0x8000 { z } else { z - 0x10000 }
}

// ---- a record

// A part of the sheet, without the kind byte.
pub fn body(sheet: &[u8], slot: Slot) -> &[u8]
    requires { end_of slot ≤ length sheet.now }
    ensures { (result.now ≡ body_of sheet.now (as_slot slot)) × (length result.now ≡ body_length (as_kind slot.due.kind)) }
{
    let form = slot.due.kind.form();
    let from = slot.start + 1;
    let to = from + (form.maturity + form.number);
    &sheet[from..to]
}

// Ground 2's test: the kind byte, and the maturity where the body has one.
fn right_record(sheet: &[u8], slot: Slot, body: &[u8]) -> bool
    requires { (end_of slot ≤ length sheet.now) × (body.now ≡ body_of sheet.now (as_slot slot)) }
    ensures { result ≡ right_record sheet.now (as_slot slot) }
{
    let form = slot.due.kind.form();
    sheet[slot.start] == form.byte
        && (form.maturity == 0 || big_endian::wide(body[0]) == slot.due.maturity)
}

fn read_record(sheet: &[u8], slot: Slot) -> Reading
    requires { end_of slot ≤ length sheet.now }
    ensures right { result.right ≡ right_record sheet.now (as_slot slot) }
    ensures inside { result.inside ≡ in_range sheet.now (as_slot slot) }
    ensures number { result.number ≡ number_of_record sheet.now (as_slot slot) }
    ensures next { result.next ≡ end_of slot }
{
    let kind = slot.due.kind;
    let body = body(sheet, slot);
    let number = kind.signed(big_endian::number(&body[kind.form().maturity..]));
    Reading {
        right: right_record(sheet, slot, body),
        inside: kind.admits(number),
        number,
        next: slot.start + 1 + body.len(),
    }
}

// ---- all records

// Each record is read once, for both tests and its number, and starts where the one before it ends. The index is the place, so it is kept.
fn read_records(sheet: &[u8], layout: Layout) -> Records
    requires { length sheet.now ≡ size_of (as_layout layout) }
    ensures wrong { result.wrong ≡ found (first_failure (right_record sheet.now) 1 (slots_of (as_layout layout))) }
    ensures outside { result.outside ≡ found (first_failure (in_range sheet.now) 1 (slots_of (as_layout layout))) }
    ensures numbers { take (length (slots_of (as_layout layout))) result.numbers ≡ map (number_of_record sheet.now) (slots_of (as_layout layout)) }
{
    let mut wrong = None;
    let mut outside = None;
    let mut numbers = [0; 28];
    let mut start = 0;
    for i in 0..layout.count() {
        let due = layout.entry_at(i);
        let record = read_record(sheet, Slot { due, start });
        let place = i as u64 + 1;
        wrong = wrong.or((!record.right).then_some(place));
        outside = outside.or((!record.inside).then_some(place));
        numbers[i] = record.number;
        start = record.next;
    }
    Records {
        wrong,
        outside,
        numbers,
    }
}

// ---- the numbers of a sheet whose records pass

// Rates and volumes are two loops because the conversions and their bounds differ.
fn rates(numbers: &[i64]) -> [i16; 17]
    requires { Run rate numbers.now × (length numbers.now ≤ 17) }
    ensures { take (length numbers.now) result ≡ numbers.now }
{
    let mut rates = [0; 17];
    for (i, &z) in numbers.iter().enumerate() {
        rates[i] = z as i16;
    }
    rates
}

// The size of the number at index i, of a kind that has no sign.
fn unsigned(numbers: &[i64], i: usize) -> u64
    requires { i < length numbers.now }
    ensures { result ≡ nat_abs (get_or numbers.now i (pos 0)) }
{
    numbers[i].unsigned_abs()
}

fn volumes(numbers: &[i64]) -> [u64; 5]
    requires { length numbers.now ≤ 5 }
    ensures { take (length numbers.now) result ≡ map nat_abs numbers.now }
{
    let mut volumes = [0; 5];
    for (i, &z) in numbers.iter().enumerate() {
        volumes[i] = z.unsigned_abs();
    }
    volumes
}

// What a sheet without the phase-in's record counts as.
const ABSENT_PHASE_IN: u64 = 10_000;

fn phase_in(numbers: &[i64], layout: Layout) -> u64
    requires { AllInside (as_layout layout) numbers.now }
    ensures { result ≡ (numbers_of (as_layout layout) numbers.now).phase_in }
{
    if layout.phased {
        unsigned(numbers, layout.ultimate_index() + 2)
    } else {
        ABSENT_PHASE_IN
    }
}

// The last number, where the record stands.
fn adjustment(numbers: &[i64], layout: Layout) -> Option<i64>
    requires { AllInside (as_layout layout) numbers.now }
    ensures stands { is_some result ≡ layout.adjusts }
    ensures value { unwrap_or result (pos 0) ≡ (numbers_of (as_layout layout) numbers.now).adjustment }
{
    if layout.adjusts {
        numbers.last().copied()
    } else {
        None
    }
}

// Ground 4's test on the volumes that the sheet carries: whether one is above 0.
fn any_traded(numbers: &[i64], layout: Layout) -> bool
    requires { AllInside (as_layout layout) numbers.now }
    ensures { result ≡ ltb 0 (total (numbers_of (as_layout layout) numbers.now).volumes) }
{
    let volumes = &numbers[layout.volume_index()..layout.ultimate_index()];
    volumes.iter().any(|volume| 0 < volume.unsigned_abs())
}

fn numbers_of(numbers: &[i64], layout: Layout) -> Numbers
    requires inside { AllInside (as_layout layout) numbers.now }
    requires in_range { NumbersInRange (numbers_of (as_layout layout) numbers.now) }
    ensures { as_numbers result ≡ numbers_of (as_layout layout) numbers.now }
{
    let profile = layout.profile;
    let month = layout.month_index();
    let volume = layout.volume_index();
    let ultimate = layout.ultimate_index();
    Numbers {
        profile,
        month: unsigned(numbers, month),
        rates: rates(&numbers[month + 1..volume]),
        volumes: volumes(&numbers[volume..ultimate]),
        ultimate: unsigned(numbers, ultimate),
        limit: unsigned(numbers, ultimate + 1),
        phase_in: phase_in(numbers, layout),
        adjustment: adjustment(numbers, layout),
    }
}

// For any bytes. Each ground is tried on the whole sheet before the next (SPECIFICATION 2.3).
pub fn read(sheet: &[u8]) -> Result<Numbers, Ground>
    ensures { outcome_of as_numbers result ≡ read_sheet sheet.now }
{
    profile_of(sheet)?;
    let layout = layout_of(sheet);
    if sheet.len() != layout.size() {
        return Err(Ground::WrongLength);
    }
    let Records {
        wrong,
        outside,
        numbers,
    } = read_records(sheet, layout);
    if let Some(place) = wrong {
        return Err(Ground::WrongRecord(place));
    }
    if let Some(place) = outside {
        return Err(Ground::OutOfRange(place));
    }
    let numbers = &numbers[..layout.count()];
    if !any_traded(numbers, layout) {
        return Err(Ground::NoVolume);
    }
    Ok(numbers_of(numbers, layout))
}
