// No code: document 01's worked cases stand in specs/Table.antt, and the one proof over them in proofs/Worked.antt.

#![tactic(auto)]
