// No code: what the two passes have to do with each other, in specs/ and proofs/ (document 02, request 3).

#![tactic(auto)]
