// Number 5 (document 01, "Numbers handed back"): whether a frame's bytes are within their values, of types and of every
// frame.
#![tactic(auto)]

pub mod fields;
pub mod types;
