// Document 01's program: what a sheet makes of an entry, as one line and a reading.
#![tactic(auto)]

use std::io;

fn main(rt: HostRuntime) -> io::Result<()> {
    output::program::run(&rt)
}
