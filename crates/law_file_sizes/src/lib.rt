// No code: what sizes and ranges mean of a text stands in specs/ and proofs/ (document 02, requests 5 and 6).

#![tactic(auto)]
