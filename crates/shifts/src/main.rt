// Takes two sheets from standard input, the first being its first 109 bytes, and writes the shifts at which a block meets targets, and what lists and sheets
// that are turned down are answered: a line for each, the ground's number, or 0, and its place, then the shift in 16 bits of two's complement. The file
// `stdout` is what the second implementation writes.
#![tactic(auto)]

use std::io;

// No shift stands beside a refusal: 0 is written there.
fn shift(rt: &impl Print, sheet: &[u8], numbers: &[u64], target: u64) -> io::Result<()> {
    let answer = shift_search::shift_of_numbers(sheet, numbers, target);
    let number = grounds::number(&answer);
    let place = grounds::place(&answer);
    let bits = big_endian::twos_complement(answer.unwrap_or(0)) % 65_536;
    println!(rt; "{number} {place} {bits}")
}

// A target that any block meets, five between, and one that none meets; then 20 for an odd count and for no entry, 21 and 22 at their places.
fn shifts(rt: &impl Print, sheet: &[u8]) -> io::Result<()> {
    let pension: [u64; 6] = [1, 100_000, 10, 100_000, 30, 500_000];
    for target in [u64::MAX, 650_000, 620_000, 390_000, 380_000, 370_000, 0] {
        shift(rt, sheet, &pension, target)?;
    }
    shift(rt, sheet, &pension[..5], 380_000)?;
    shift(rt, sheet, &pension[..0], 380_000)?;
    shift(rt, sheet, &[1, 1, 151, 1_000_000_001], 380_000)?;
    shift(rt, sheet, &[1, 1_000_000_001], 380_000)
}

// The second sheet is all that follows the first; a cut one comes last.
fn sheets(rt: &impl Print, input: &[u8]) -> io::Result<()> {
    if input.len() < 109 {
        return Ok(());
    }
    shifts(rt, &input[..109])?;
    shifts(rt, &input[109..])?;
    shifts(rt, &input[..108])
}

fn main(rt: HostRuntime) -> io::Result<()> {
    let mut buffer = [0u8; 65_536];
    let read = input::fill(&mut rt.stdin(), &mut buffer)?;
    sheets(&rt, &buffer[..read])
}
