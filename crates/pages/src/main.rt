// Replays the journal of standard input on books with age limits of 5,000, 3 and 2 months, and pages the plain curve of each, then the
// adjusted one, into the first 0, 1,504, 1,505 and 2,000 bytes of 2,000 lent sevens: writes the ground's number, or 0, and all 2,000
// bytes. Then, of one more page, all bytes of 1,506 lent sevens once years 1 to t are written, t being 0, 1, 2, 75, 149 and 150. The
// file `stdout` is what the second implementation writes.
#![tactic(auto)]

ghost use Rattle.std.specs.Prelude.{◌≤◌};

use book::Which;
use std::io;

// No multiple of it up to 150 times has two equal bytes, so that their order shows.
const MULTIPLE: u32 = 0x0102_0304;

fn show(
    rt: &impl Print,
    age_limit: u64,
    calls: &[u8],
    which: Which,
    lent: &mut [u8],
    length: usize,
) -> io::Result<()> {
    if lent.len() < length {
        return Ok(());
    }
    let answer = replay::page_after(age_limit, calls, which, &mut lent[..length]);
    rt.println(grounds::number(&answer))?;
    rt.write_all(lent)
}

fn page_into(
    rt: &impl Print,
    age_limit: u64,
    calls: &[u8],
    which: Which,
    length: usize,
) -> io::Result<()> {
    let mut lent = [7u8; 2_000];
    show(rt, age_limit, calls, which, &mut lent, length)
}

fn pages(rt: &impl Print, age_limit: u64, calls: &[u8]) -> io::Result<()> {
    for which in [Which::Plain, Which::Adjusted] {
        pages_of(rt, age_limit, calls, which)?;
    }
    Ok(())
}

fn pages_of(rt: &impl Print, age_limit: u64, calls: &[u8], which: Which) -> io::Result<()> {
    for length in [0, 1_504, 1_505, 2_000] {
        page_into(rt, age_limit, calls, which, length)?;
    }
    Ok(())
}

// Of years 1 to 150.
fn multiples(of: u32) -> [u32; 150]
    requires { of ≤ 16_909_061 }
{
    let mut numbers = [0u32; 150];
    let mut last: u32 = 0;
    for number in &mut numbers {
        last += of;
        *number = last;
    }
    numbers
}

fn show_written_to(rt: &impl Print, t: usize) -> io::Result<()>
    requires { t ≤ 150 }
{
    let lows = multiples(MULTIPLE);
    let highs = multiples(MULTIPLE + 1);
    let mut lent = [7u8; 1_506];
    page_writer::write_to(5, 2, &lows, &highs, t, &mut lent);
    rt.write_all(&lent)
}

fn states(rt: &impl Print) -> io::Result<()> {
    for t in [0, 1, 2, 75, 149, 150] {
        show_written_to(rt, t)?;
    }
    Ok(())
}

fn main(rt: HostRuntime) -> io::Result<()> {
    let mut buffer = [0u8; 65_536];
    let read = input::fill(&mut rt.stdin(), &mut buffer)?;
    for age_limit in [5_000, 3, 2] {
        pages(&rt, age_limit, &buffer[..read])?;
    }
    states(&rt)
}
