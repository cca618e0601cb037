// No code: what holds of the answers of a whole file (rule_answers) stands in proofs/.

#![tactic(auto)]
