// No code: that type equality is an equivalence, and that Access and AccessIndex agree, stands in specs/, over texts,
// and its proofs in proofs/.

#![tactic(auto)]
