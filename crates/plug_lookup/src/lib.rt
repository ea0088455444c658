// The variation at a latitude and a column. The image is read through the chip's walk and page alone.
#![tactic(auto)]

pub mod end;
pub mod header;
pub mod variation;
