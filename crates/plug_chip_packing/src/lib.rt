// The chip's state as bytes, for callers that hold it in memory of their own.
// It is a front of sixteen bytes, and then the registration number as it is. specs/Chip.antt has the layout: a state is its fields' bytes,
// one after the other, an enum a tag and its case's fields, with zeros up to the end of the front.
#![tactic(auto)]

pub mod chip_state;
