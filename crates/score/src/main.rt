// The program: the score of standard input, or its refusal, as one line. Run here on byte 01.
#![tactic(auto)]

use std::io;

fn main(rt: HostRuntime) -> io::Result<()> {
    program::run(&rt)
}
