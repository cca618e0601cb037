// Access, AccessIndex, Splat, Swizzle, Load and CooperativeLoad: the source's ResolveContext::resolve
// (proc/typifier.rs), lines 273 to 443, 474 to 494 and 805 to 822. `reads` reads the operand and looks into its type;
// the other modules say what follows from the form.
#![tactic(auto)]

pub mod access;
pub mod access_index;
pub mod reads;
