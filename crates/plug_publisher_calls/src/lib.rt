// The work of the entries of the publisher, of every kind of update: each judges what it is given, and hands back what it came to. The
// answer's buffer is judged alone: the C interface tells there what is handed back.
#![tactic(auto)]

pub mod publisher;
pub mod update;
