// A sheet of 257 lines and one byte more.
#![tactic(auto)]

use std::io;

fn main(rt: HostRuntime) -> io::Result<()> {
    output::program::run(&rt)
}
