// What the public functions over a file give: the definitions stand in specs/. Crate law_file has their laws, crates
// file_* the code.
#![tactic(auto)]

// What typing an accepted file gives: how many frames it has, and how many are handed back.
#[derive(Clone, Copy)]
pub struct TypedFile {
    pub frames: usize,
    pub outputs: usize,
}
