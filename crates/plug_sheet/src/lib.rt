// The stored sheet of a chip, and its list.
#![tactic(auto)]

pub mod list;
pub mod stored;
