// The DS2505 as its callers know it, driven by bus events. Every entry judges its own input.
#![tactic(auto)]

pub mod event;
