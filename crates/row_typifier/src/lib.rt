// The types of rows: the source's ResolveContext::resolve (proc/typifier.rs), by the rules of rule_rows/specs/.
#![tactic(auto)]

pub mod resolve;
