// No code: the laws of the verdict on a compose stand in specs/ and proofs/.

#![tactic(auto)]
