// No code: a worked file, with what this reader and a later one answer, stands in specs/, and one proof over it in
// proofs/.

#![tactic(auto)]
