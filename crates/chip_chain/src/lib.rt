// The chain of redirection bytes: where the walk from a page ends, and which pages are free.
// A chip is known here by its last page, 63 for the DS2505.
#![tactic(auto)]

pub mod count;
pub mod free;
pub mod walk;
