// What is asked of an image: the walk from a page, a page, free pages. Every entry judges its own input.
#![tactic(auto)]

pub mod free;
pub mod page;
pub mod walk;
