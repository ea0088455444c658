// The work of the entries of the two reads: each judges what it is given, runs the read, and hands back what it came to. The answer's
// buffer is judged alone: the C interface tells there what is handed back.
#![tactic(auto)]

pub mod number;
pub mod page;
