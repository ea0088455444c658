// Lists the stored sheet on standard input.
#![tactic(auto)]

use std::io;

fn main(rt: HostRuntime) -> io::Result<()> {
    let mut input = [0u8; 2393];
    let sheet = program_listing::read(&mut rt.stdin(), &mut input)?;
    program_listing::print(&rt, sheet)
}
