// No code: small texts and their lines for people stand in specs/Table.antt, and the one proof over them in
// proofs/Worked.antt.

#![tactic(auto)]
