// Writes a page into a lent buffer: the head, then year by year each record straight to its own ten bytes. Once years 1 to t are
// written, the first 5 + 10 t bytes are the page's and all others still as lent; every such state ends a function whose contract says so.
#![tactic(auto)]

ghost use Rattle.std.specs.Prelude.{◌≡◌, ◌≤◌, ◌<◌, length};
ghost use Rattle.ledger.specs.Page.{year_record, page_bytes, page_length};
ghost use Rattle.page_writer.specs.Written.{written_to, Begun, Bands, Underway, OneYearOn};

use big_endian::put;

// ---- no year yet

fn put_head(month: u64, age: u64, out: &mut [u8])
    requires { page_length ≤ length out.old }
    ensures { Begun month age out.old out.new }
{
    put(0x48, 1, 0, out);
    put(month, 2, 1, out);
    put(age, 2, 3, out);
}

// ---- one year more

fn put_record(year: u64, low: u32, high: u32, bytes: &mut [u8])
    requires { (year < 256) × (length bytes.old ≡ 10) }
    ensures { bytes.new ≡ year_record year low high }
{
    put(0x59, 1, 0, bytes);
    put(year, 1, 1, bytes);
    put(low as u64, 4, 2, bytes);
    put(high as u64, 4, 6, bytes);
}

// The record of the year after t, where years 1 to t are written.
fn put_next_year<'a>(lows: &'a [u32], highs: &'a [u32], t: usize, out: &mut [u8])
    requires t_bound { (t < 150) × Bands lows.now highs.now }
    requires page_length_in_bounds { (page_length ≤ length out.old) × Underway t lows.now highs.now out.old }
    ensures { OneYearOn t lows.now highs.now out.old out.new }
{
    let from = 5 + 10 * t;
    let end = from + 10;
    put_record(t as u64 + 1, lows[t], highs[t], &mut out[from..end]);
}

// ---- years 1 to t; of 150 years the whole page

// Each record goes straight to its own bytes: the named form of the page, a year at a time.
pub fn write_to<'a>(
    month: u64,
    age: u64,
    lows: &'a [u32],
    highs: &'a [u32],
    t: usize,
    out: &mut [u8],
)
    requires { (t ≤ 150) × Bands lows.now highs.now × (page_length ≤ length out.old) }
    ensures { out.new ≡ written_to t (page_bytes month age lows.now highs.now) out.old }
{
    put_head(month, age, out);
    for y in 0..t {
        put_next_year(lows, highs, y, out);
    }
}
