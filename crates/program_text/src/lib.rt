// What the variation program writes for an answer. `numeral` has how it reads a number.
#![tactic(auto)]

pub mod numeral;

use base_types::refusal::Refusal;
use std::{fmt, io};

// What a refusal means. Those of the chip's other entries cannot come here, and have no words.
#[derive(Clone, Copy)]
struct Meaning(Refusal);

impl fmt::Display for Meaning {
    fn fmt<W: fmt::Write>(&self, f: &mut fmt::Formatter<W>) -> fmt::Result {
        match self.0 {
            Refusal::ImageLength => write!(f, " image length"),
            Refusal::Loop => write!(f, " loop"),
            Refusal::Outside(x) => write!(f, " outside {x}"),
            Refusal::Sheet => write!(f, " sheet faulty"),
            Refusal::Header => write!(f, " header faulty"),
            Refusal::Latitude => write!(f, " latitude in no row"),
            Refusal::Column => write!(f, " column too large"),
            Refusal::NoValue => write!(f, " no value"),
            _ => Ok(()),
        }
    }
}

// What was told: tenths after the word for what they are, or a refusal. Sixteen bits hold a value or a change, the sign among them, and these
// are printed, as they stand in an answer of the C interface.
#[derive(Clone, Copy)]
struct Line<'a> {
    word: &'a str,
    told: Result<i32, Refusal>,
}

impl fmt::Display for Line<'_> {
    fn fmt<W: fmt::Write>(&self, f: &mut fmt::Formatter<W>) -> fmt::Result {
        match self.told {
            Ok(tenths) => {
                let shown = base_tenths::low_bits(tenths).cast_signed();
                write!(f, "{} {shown}", self.word)
            }
            Err(refusal) => write!(f, "refused {}{}", refusal.number(), Meaning(refusal)),
        }
    }
}

// What a lookup told, as a line on standard output.
pub fn print_variation(rt: &impl Print, told: Result<i32, Refusal>) -> io::Result<()> {
    println!(rt;
        "{}",
        Line {
            word: "variation",
            told
        }
    )
}

// What a change told, as a line on standard output.
pub fn print_change(rt: &impl Print, told: Result<i32, Refusal>) -> io::Result<()> {
    println!(rt;
        "{}",
        Line {
            word: "change",
            told
        }
    )
}
