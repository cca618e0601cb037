// No code: the laws of sizes by counts over accepted files stand in proofs/ (document 02, request 6).

#![tactic(auto)]
