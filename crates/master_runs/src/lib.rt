// Each master fed a list of replies, a byte each. A buffer gets a byte for each call: the event that it returned, or FFh where it
// returned none. Every run judges what it is given before it writes anything: 2, 10; state and buffers are then as they were.
#![tactic(auto)]

mod calls;
pub mod number;
pub mod page;
pub mod publish;
