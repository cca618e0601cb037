// No code: the laws of sizes over accepted files stand in proofs/ (document 02, request 5).

#![tactic(auto)]
