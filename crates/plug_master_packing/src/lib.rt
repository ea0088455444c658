// The states of the masters as bytes, for callers that hold them in memory of their own.
// Each is a front of sixteen bytes, and then an array of the state as it is. specs/ has each layout: a state is its fields' bytes, one
// after the other, an enum a tag and its case's fields, with zeros up to the end of the front.
#![tactic(auto)]

pub mod number_state;
pub mod page_state;
pub mod publisher_state;
