// Prints the trace of the row that the text on standard input asks for.
#![tactic(auto)]

use std::io;

fn main(rt: HostRuntime) -> io::Result<()> {
    trace::print_trace(&mut rt.stdin(), &mut rt.stdout())
}
