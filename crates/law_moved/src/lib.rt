// No code: a file's numbers and frames where they are moved (document 02, requests 12 and 14) stand in specs/, and what
// is proved of a file that is carried into another so in proofs/.

#![tactic(auto)]
