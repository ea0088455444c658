// Lists the stored sheets on standard input, one after the other. Each is preceded by its length, 16-bit, low byte first, at most 4,000; the
// length FFFFh ends them.
#![tactic(auto)]

use std::io;

fn main(rt: HostRuntime) -> io::Result<()> {
    let mut input = rt.stdin();
    let mut buffer = [0u8; 4000];
    // All sheets, a million at most.
    for _ in 0..1000000 {
        match program_listing::next_sheet(&mut input, &mut buffer)? {
            Some(sheet) => program_listing::print(&rt, sheet)?,
            None => break,
        }
    }
    Ok(())
}
