// The source's validate_compose (valid/compose.rs, lines 15 to 116): the rule of the verdict on a compose stands in
// specs/. Crate verdict_compose has the code.

#![tactic(auto)]
