// The same program as `score`, run here on byte FF, which is not UTF-8.
#![tactic(auto)]

use std::io;

fn main(rt: HostRuntime) -> io::Result<()> {
    program::run(&rt)
}
