// What each line for people says, as pieces (rule_explain/specs/Lines.antt), from the bytes of frames: types in WGSL's
// spelling, answers, verdicts, faults and sizes.
#![tactic(auto)]

pub mod lines;
pub mod types;
