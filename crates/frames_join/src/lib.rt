// Two files in one (document 02, request 14), frame by frame: a frame of the second as it stands in the join, and
// whether a file may be joined.
#![tactic(auto)]

pub mod joinable;
pub mod moved;
