// The desk: reads records from standard input and answers each with a line on standard output.
#![tactic(auto)]

use std::io;

fn main(rt: HostRuntime) -> io::Result<()> {
    desk_core::serve(&mut rt.stdin(), &mut rt.stdout())
}
