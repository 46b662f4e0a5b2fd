// Lines put into a text, each function behind what is written so far; it gives the new end.
ghost use Rattle.std.specs.Prelude.{◌+◌, ◌≤◌, ◌∷◌, length};
ghost use Rattle.grounds.specs.Answers.{as_ground};
ghost use Rattle.journal.specs.Made.{as_reply};
ghost use Rattle.desk_core.specs.Lines.{decimal, spaced, line, line_of};
ghost use Rattle.desk_core.specs.Handed.{Puts, refusal_line};

use grounds::Ground;
use journal::Reply;

fn put(bytes: &[u8], text: &mut [u8], at: usize) -> usize
    requires { at + length bytes.now ≤ length text.old }
    ensures { Puts bytes.now text.old at text.new result }
{
    let end = at + bytes.len();
    text[at..end].copy_from_slice(bytes);
    end
}

fn put_number(n: u64, text: &mut [u8], at: usize) -> usize
    requires { at + length (0x20 ∷ decimal n) ≤ length text.old }
    ensures { Puts (0x20 ∷ decimal n) text.old at text.new result }
{
    let end = put(b" ", text, at);
    let mut digits = [0u8; 20];
    let start = itoa::write_digits(n, &mut digits, 20);
    put(&digits[start..], text, end)
}

fn put_numbers(numbers: &[u64], text: &mut [u8], at: usize) -> usize
    requires { at + length (spaced numbers.now) ≤ length text.old }
    ensures { Puts (spaced numbers.now) text.old at text.new result }
{
    let mut end = at;
    for n in numbers {
        end = put_number(*n, text, end);
    }
    end
}

pub(crate) fn put_line(letter: u8, numbers: &[u64], text: &mut [u8], at: usize) -> usize
    requires { at + length (line letter numbers.now) ≤ length text.old }
    ensures { Puts (line letter numbers.now) text.old at text.new result }
{
    let first = put(&[letter], text, at);
    let last = put_numbers(numbers, text, first);
    put(b"\n", text, last)
}

fn put_refusal(g: Ground, text: &mut [u8], at: usize) -> usize
    requires { at + length (refusal_line (as_ground g)) ≤ length text.old }
    ensures { Puts (refusal_line (as_ground g)) text.old at text.new result }
{
    put_line(b'R', &[g.number(), g.place()], text, at)
}

// A call's line; none of a withdrawal.
pub(crate) fn put_reply(reply: Reply, text: &mut [u8], at: usize) -> usize
    requires { at + length (line_of (as_reply reply)) ≤ length text.old }
    ensures { Puts (line_of (as_reply reply)) text.old at text.new result }
{
    match reply {
        Reply::Posted(Ok(month)) => put_line(b'P', &[month], text, at),
        Reply::Turned(Ok(month)) => put_line(b'M', &[month], text, at),
        Reply::Looked(year, Ok(found)) => put_line(
            b'L',
            &[year, found.low, found.high, found.month, found.age],
            text,
            at,
        ),
        Reply::Posted(Err(g)) => put_refusal(g, text, at),
        Reply::Turned(Err(g)) => put_refusal(g, text, at),
        Reply::Looked(_, Err(g)) => put_refusal(g, text, at),
        Reply::Withdrawn(_) => at,
    }
}
