// What every crate above speaks of: addresses and pages as types of their own, the bits of a byte, the walk's verdict, the refusals, what
// an entry hands back beside a state, the modes of a write.
#![tactic(auto)]

pub mod address;
pub mod bits;
pub mod refusal;
pub mod stepped;
pub mod verdict;
pub mod write_mode;
