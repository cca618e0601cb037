// No code: the laws of the typifier over accepted files stand in proofs/, and in specs/ the table of what each row
// reads and looks into.

#![tactic(auto)]
