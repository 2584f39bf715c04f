// No sheet file: it counts as empty.
#![tactic(auto)]

use std::io;

fn main(rt: HostRuntime) -> io::Result<()> {
    output::program::run(&rt)
}
