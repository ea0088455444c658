// Answers the questions on standard input. All numbers have their low byte first. Each sheet is preceded by its length, 16-bit, at most
// 4,000, and followed by the count of its questions, 16-bit, and by these, a latitude and a column each, both 32-bit. The length FFFFh ends
// the sheets; pairs of an old and a new value follow, both 32-bit, until the input ends.
#![tactic(auto)]

use program_listing::{next, next_sheet};
use std::io;
use std::io::Read;

// The next two 32-bit numbers, read at once; none where the input ends first.
fn next_pair(input: &mut impl Read) -> io::Result<Option<(u32, u32)>> {
    let Some(bytes) = next::<8>(input)? else {
        return Ok(None);
    };
    let [a, b, c, d, e, f, g, h] = bytes;
    let first = u32::from_le_bytes([a, b, c, d]);
    let second = u32::from_le_bytes([e, f, g, h]);
    Ok(Some((first, second)))
}

// Answers the questions on a sheet; false where the input ends first.
fn questions(rt: &impl Print, input: &mut impl Read, sheet: &[u8]) -> io::Result<bool> {
    // Where the input ends in place of the count, as many as a count can say: a terminal may go on after its end, and what comes then is
    // taken for questions.
    let count = next(input)?.unwrap_or([0xFF; 2]);
    for _ in 0..u16::from_le_bytes(count) {
        let Some((latitude, column)) = next_pair(input)? else {
            return Ok(false);
        };
        program_text::print_variation(
            rt,
            plug_sheet_lookup::variation(sheet, latitude.cast_signed(), column),
        )?;
    }
    Ok(true)
}

// All sheets, a million at most.
fn sheets(rt: &impl Print, input: &mut impl Read) -> io::Result<()> {
    let mut buffer = [0u8; 4000];
    for _ in 0..1000000 {
        let Some(sheet) = next_sheet(input, &mut buffer)? else {
            break;
        };
        if !questions(rt, input, sheet)? {
            break;
        }
    }
    Ok(())
}

// All changes, a million at most.
fn changes(rt: &impl Print, input: &mut impl Read) -> io::Result<()> {
    for _ in 0..1000000 {
        let Some((old, new)) = next_pair(input)? else {
            break;
        };
        let change = base_tenths::change(old.cast_signed(), new.cast_signed());
        program_text::print_change(rt, change)?;
    }
    Ok(())
}

fn main(rt: HostRuntime) -> io::Result<()> {
    let mut input = rt.stdin();
    sheets(&rt, &mut input)?;
    changes(&rt, &mut input)
}
