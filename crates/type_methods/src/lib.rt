// Code on types: what an answer shows where it is looked into (forms), canonical forms and pointer bases
// (proc/type_methods.rs, lines 193 to 230 and 299 to 339), and whether two types are the same: the source's
// compare_types (proc/typifier.rs, lines 841 to 864) and non_struct_equivalent (proc/type_methods.rs, lines 341 to
// 356). Two frames handed in get their 5 or 6 first.
#![tactic(auto)]

pub mod by_number;
pub mod canonical;
pub mod compare;
pub mod forms;
pub mod handed;
