// No code: what holds of what the functions over a file give (rule_file) stands in proofs/.

#![tactic(auto)]
