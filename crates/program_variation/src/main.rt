// The variation at a latitude and a column, the two arguments, of the stored sheet on standard input.
#![tactic(auto)]

ghost use Rattle.std.specs.Prelude.{◌≤◌, length, IfSome};

use program_text::numeral;
use std::env::{Env, FillError};
use std::io;

fn print_usage(rt: &impl Eprint) -> io::Result<()> {
    eprintln!(rt;
        "usage: variation LATITUDE COLUMN <SHEET: the latitude in tenths of a degree, the column from 0, one to nine digits each"
    )
}

fn answer(rt: &HostRuntime, latitude: i32, column: u32) -> io::Result<()> {
    let mut input = [0u8; 2393];
    let sheet = program_listing::read(&mut rt.stdin(), &mut input)?;
    program_text::print_variation(rt, plug_sheet_lookup::variation(sheet, latitude, column))
}

// Whether there is such an argument; 0 is the program's name.
fn has_arg(rt: &impl Env, i: usize) -> bool {
    let mut text = [0u8; 16];
    !matches!(rt.arg(i, &mut text), Err(FillError::NotPresent))
}

// An argument's bytes; none where they are more than the text holds.
fn arg<'a>(rt: &impl Env, i: usize, text: &'a mut [u8; 16]) -> Option<&'a [u8]>
    ensures { IfSome result (λ word. length word.now ≤ 16) }
{
    let size = rt.arg(i, text).ok()?;
    Some(&text[..size])
}

// The latitude and the column, where these are the arguments.
fn arguments(rt: &impl Env) -> Option<(i32, u32)> {
    if !has_arg(rt, 2) || has_arg(rt, 3) {
        return None;
    }
    let mut text = [0u8; 16];
    let latitude = numeral::integer(arg(rt, 1, &mut text)?)?;
    let column = numeral::natural(arg(rt, 2, &mut text)?)?;
    Some((latitude, column))
}

fn main(rt: HostRuntime) -> io::Result<()> {
    match arguments(&rt) {
        Some((latitude, column)) => answer(&rt, latitude, column),
        None => print_usage(&rt),
    }
}
