// An entry of 4,097 bytes.
#![tactic(auto)]

use std::io;

fn main(rt: HostRuntime) -> io::Result<()> {
    output::program::run(&rt)
}
