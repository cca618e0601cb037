// What is handed back as frames (document 01, the end of "The file"): types, answers, verdicts and refusals written,
// and answers read again.
#![tactic(auto)]

pub mod read;
pub mod types;
pub mod write;
