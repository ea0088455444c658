// The chip's memory: the image with its fields, a page as a part of it, and what a write does to it.
// A chip is known here by its last page, 63 for the DS2505. Every function is total: out of range a byte reads as the definitions say.
#![tactic(auto)]

pub mod image;
pub mod layout;
pub mod page;
pub mod write;
