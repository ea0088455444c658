// How the programs read sheets, and what the list program writes for one.
#![tactic(auto)]

ghost use Rattle.std.specs.Prelude.{◌≡◌, ◌≤◌, length, IfOk, IfSome};
ghost use Rattle.base_types.specs.Refusal.{number_of};
ghost use Rattle.chip_memory.specs.Page.{copied};
ghost use Rattle.plug_sheet.specs.List.{refused_line};
ghost use Rattle.program_listing.specs.Report.{report_of, report_buffer};

use base_types::refusal::Refusal;
use plug_sheet::list;
use std::io;
use std::io::{ErrorKind, Read};

// The line of a refusal into a buffer, and how many bytes it has.
#[tactic(auto, unfolding(plug_sheet::specs::List::refusal_answer, plug_sheet::specs::List::refusal_buffer))]
fn refusal(refusal: Refusal, text: &mut [u8; 1576]) -> usize
    ensures size { result ≡ length (refused_line (number_of refusal)) }
    ensures text { text.new ≡ copied (refused_line (number_of refusal)) text.old }
{
    list::write_refusal(refusal, text).unwrap_or(0)
}

// The list of a sheet, or the line of its refusal, into a buffer, and how many bytes it has: the part of the buffer in place of that number
// would say nothing of what is past it, which stays.
#[tactic(auto, unfolding(plug_sheet::specs::List::list_answer, plug_sheet::specs::List::list_buffer, crate::specs::Report::report_of, crate::specs::Report::report_buffer))]
pub fn report(sheet: &[u8], text: &mut [u8; 1576]) -> usize
    ensures size { result ≡ length (report_of 64 sheet.now) }
    ensures text { text.new ≡ report_buffer 64 sheet.now text.old }
{
    match list::write(sheet, text) {
        Ok(size) => size,
        Err(r) => refusal(r, text),
    }
}

// Reads what the input has now, and says how many bytes that is; a read that was interrupted is tried again.
fn read_some(input: &mut impl Read, bytes: &mut [u8]) -> io::Result<usize>
    ensures { IfOk result (λ n. n ≤ length bytes.new) }
{
    for _ in 0..u64::MAX {
        match input.read(bytes) {
            Ok(n) => return Ok(n),
            Err(e) if e.kind() == ErrorKind::Interrupted => {}
            Err(e) => return Err(e),
        }
    }
    input.read(bytes)
}

// The bytes of an input, until it ends or the buffer is full. The buffer has one byte more than a sheet, so that a longer input is refused.
// The library's read_to_end needs a heap.
pub fn read<'a>(input: &mut impl Read, buffer: &'a mut [u8; 2393]) -> io::Result<&'a [u8]>
    ensures { IfOk result (λ sheet. length sheet.now ≤ 2393) }
{
    let mut size: usize = 0;
    for _ in 0..2393 {
        let more = read_some(input, &mut buffer[size..])?;
        if more == 0 {
            break;
        }
        size += more;
    }
    Ok(&buffer[..size])
}

// Fills the bytes from the input; false where it ends first.
fn fill(input: &mut impl Read, bytes: &mut [u8]) -> io::Result<bool> {
    match input.read_exact(bytes) {
        Ok(()) => Ok(true),
        Err(e) if e.kind() == ErrorKind::UnexpectedEof => Ok(false),
        Err(e) => Err(e),
    }
}

// The next so many bytes of an input; none where it ends first.
pub fn next<const N: usize>(input: &mut impl Read) -> io::Result<Option<[u8; N]>>
    ensures { IfOk result (λ found. IfSome found (λ bytes. length bytes ≡ N)) }
{
    let mut bytes = [0u8; N];
    let whole = fill(input, &mut bytes)?;
    Ok(whole.then_some(bytes))
}

// The next of several sheets, in a buffer. Each is preceded by its length, 16-bit, low byte first; none where the buffer has no room for
// one of that length, or the input ends first.
pub fn next_sheet<'a>(
    input: &mut impl Read,
    buffer: &'a mut [u8; 4000],
) -> io::Result<Option<&'a [u8]>>
    ensures { IfOk result (λ found. IfSome found (λ sheet. length sheet.now ≤ 4000)) }
{
    let Some(size) = next(input)? else {
        return Ok(None);
    };
    let size = u16::from_le_bytes(size) as usize;
    if buffer.len() < size || !fill(input, &mut buffer[..size])? {
        return Ok(None);
    }
    Ok(Some(&buffer[..size]))
}

// A sheet's report on standard output.
#[tactic(auto, using(crate::proofs::Reports::report_fits))]
pub fn print(rt: &impl Print, sheet: &[u8]) -> io::Result<()> {
    let mut text = [0u8; 1576];
    let size = report(sheet, &mut text);
    rt.write_all(&text[..size])
}
