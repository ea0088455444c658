// The memory functions of the DS2505: what follows a whole byte that came in, a run of bits that went out, a slot and a pulse.
#![tactic(auto)]

pub mod function;
pub mod ranges;
pub mod receive;
pub mod send;
