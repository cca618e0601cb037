// No code: in specs/ the lines that worked files are written in, and worked files with the types of their rows; in
// proofs/ one proof over the files.

#![tactic(auto)]
