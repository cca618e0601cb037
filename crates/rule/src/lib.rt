// What a rule is, and how it is run and followed, stand in specs/; the claim on later readers, for any rules, is proved
// in proofs/, and that of our reader in law_later_readers. Crate type_methods has the code of what an answer shows.

// What a comparison would answer a type with before any look: nothing, 5 or 6.
#![tactic(auto)]

#[derive(Clone, Copy)]
pub enum Fault {
    Sound,
    Field,
    Index,
}
