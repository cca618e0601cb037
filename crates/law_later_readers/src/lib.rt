// No code: the claim on later readers stands in specs/, of texts and bytes, and its proofs in proofs/.

#![tactic(auto)]
