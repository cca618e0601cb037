// Literals, constants, arguments, variables, Load's base, results of calls, special types and CooperativeLoad's base:
// what follows from what the row names, proc/typifier.rs, lines 444 to 494 and 774 to 822, and of a literal its scalar,
// proc/mod.rs, lines 175 to 190.
#![tactic(auto)]

pub mod results;
pub mod variables;
