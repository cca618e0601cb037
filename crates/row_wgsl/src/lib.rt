// Binary in the second pass, by WGSL's tables (document 02, request 3); the source has no code for it. `tests` has
// what the tables ask of types, `by_operator` what follows for an operator from the shapes of its operands' types,
// `reads` reads both operands and looks into their types.
#![tactic(auto)]

pub mod by_operator;
pub mod reads;
pub mod tests;
