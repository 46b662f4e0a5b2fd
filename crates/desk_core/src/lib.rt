// The desk: records in, a line for each out, through a block and a text of constant size.
#![tactic(auto)]

mod lines;

ghost use Rattle.std.specs.Prelude.{◌≡◌, ◌+◌, ◌-◌, ◌<◌, ◌≤◌, min, length, take, drop, IfOk, OnErr};
ghost use Rattle.book.specs.Views.{as_book};
ghost use Rattle.desk_core.specs.Lines.{broken_line};
ghost use Rattle.desk_core.specs.Desk.{line_room, served};
ghost use Rattle.desk_core.specs.Handed.{is_not_known, Serves, Waits, as_desk, Opens, Passes, most_read, Reads};

use book::Book;
use journal::NoCall;
use lines::{put_line, put_reply};
use std::io;
use std::io::{Read, Write};

// Any line's room.
const LINE_ROOM: usize = 128;

// A read's bytes at most, however much room the block has: short records fill the text many times over, and each time all that is left
// is moved down.
const MOST_READ: usize = 4_096;

// Between two passes: the book, how many bytes of the block are held, and the offset of the first of them.
#[derive(Clone, Copy)]
struct Desk {
    book: Book,
    offset: u64,
    held: usize,
}

// The whole records at the front of the bytes held: how many bytes they take and how many their lines have; and why no more were
// served, if not for want of room.
#[derive(Clone, Copy)]
struct Served {
    taken: usize,
    written: usize,
    stop: Option<NoCall>,
}

// Makes the calls of the whole records at the front of what is held and puts their lines, while the text has room for one line more.
fn serve_held(book: &mut Book, held: &[u8], text: &mut [u8]) -> Served
    ensures pass { Serves (served (length text.old) (as_book book.old) held.now) text.new book.new result }
    ensures waits { Waits (length text.old) held.now result.taken (is_not_known result.stop) }
{
    let mut taken: usize = 0;
    let mut written: usize = 0;
    while LINE_ROOM <= text.len() - written {
        match journal::make_at_desk(book, &held[taken..]) {
            Ok(made) => {
                written = put_reply(made.reply, text, written);
                taken += made.taken;
            }
            Err(why) => {
                return Served {
                    taken,
                    written,
                    stop: Some(why),
                };
            }
        }
    }
    Served {
        taken,
        written,
        stop: None,
    }
}

// ---- a pass

// Moves the bytes from `from` to `to` to the front, and says how many they are. Bytes that stand there are left alone: a long record may
// come in many small reads.
fn move_down(bytes: &mut [u8], from: usize, to: usize) -> usize
    requires { (from ≤ to) × (to ≤ length bytes.old) }
    ensures { (result ≡ to - from) × (take result bytes.new ≡ drop from (take to bytes.old)) }
{
    if from == 0 {
        return to;
    }
    bytes.copy_within(from..to, 0);
    to - from
}

impl Desk {
    fn opened() -> Desk
        ensures { Opens result }
    {
        Desk {
            book: Book::fresh(book::LARGEST_AGE_LIMIT),
            offset: 0,
            held: 0,
        }
    }

    // Serves what is held, and holds what is left of it.
    fn pass(&mut self, block: &mut [u8], text: &mut [u8]) -> Served
        requires { self.old.held ≤ length block.old }
        ensures pass { Passes (length text.old) (as_desk self.old block.old) block.new text.new self.new result }
        ensures waits { Waits (length text.old) (take self.old.held block.old) result.taken (is_not_known result.stop) }
    {
        let held = self.held;
        let served = serve_held(&mut self.book, &block[..held], text);
        self.offset = self.offset.wrapping_add(served.taken as u64);
        self.held = move_down(block, served.taken, held);
        served
    }

    // One read behind the bytes that are held, and how many bytes it put. These stay, also where the read fails.
    fn read_more<R: Read>(&mut self, input: &mut R, block: &mut [u8]) -> io::Result<usize>
        requires { self.old.held < length block.old }
        ensures read { IfOk result (λ n. Reads self.old block.old block.new n self.new) }
        ensures held { take self.old.held block.new ≡ take self.old.held block.old }
        ensures failed { OnErr result (self.new ≡ self.old) }
    {
        let held = self.held;
        let end = read_end(held, block.len());
        let got = read_into(input, &mut block[held..end])?;
        self.held = held + got;
        Ok(got)
    }
}

// ---- reading and writing

// One read, where there is room: so it puts nothing only at the end of the input.
fn read_into<R: Read>(input: &mut R, room: &mut [u8]) -> io::Result<usize>
    requires { 0 < length room.old }
    ensures { IfOk result (λ n. n ≤ length room.old) }
{
    input.read(room)
}

// Where a read behind the bytes held ends, in a block of this size.
fn read_end(held: usize, size: usize) -> usize
    requires { held ≤ size }
    ensures { result ≡ min (held + most_read) size }
{
    held + (size - held).min(MOST_READ)
}

fn write_broken<W: Write>(output: &mut W, offset: u64, text: &mut [u8]) -> io::Result<()>
    requires { line_room ≤ length text.old }
    ensures { take (length (broken_line offset)) text.new ≡ broken_line offset }
{
    let end = put_line(b'X', &[offset], text, 0);
    output.write_all(&text[..end])
}

// Serves the input to its end, or to an unknown kind, as `printed_in` says. A proved loop has to end, and nothing says that the input
// does: so the passes are counted, up to a number that no run reaches. A read or a write that fails ends it, with its error.
pub fn serve<R: Read, W: Write>(input: &mut R, output: &mut W) -> io::Result<()> {
    // The longest record fits: while none is whole, there is room to read.
    let mut block_space = [0u8; 65_538];
    let block: &mut [u8] = &mut block_space;
    let mut text_space = [0u8; 4_096];
    let text: &mut [u8] = &mut text_space;
    let mut desk = Desk::opened();
    for _ in 0..u64::MAX {
        let served = desk.pass(block, text);
        output.write_all(&text[..served.written])?;
        if served.stop == Some(NoCall::NotKnown) {
            return write_broken(output, desk.offset, text);
        }
        if served.taken == 0 && desk.read_more(input, block)? == 0 {
            if 0 < desk.held {
                return write_broken(output, desk.offset, text);
            }
            return Ok(());
        }
    }
    Ok(())
}
