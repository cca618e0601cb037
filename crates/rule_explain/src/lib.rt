// Lines for people (docs/EXPLAIN.md), in specs/: the words, what a line says of a type, an answer, a verdict, a fault
// and a size, and the lines of a whole file. Crates explain_words, explain_lines and explain_file have the code.

// A scalar: its name, or its kind and how many bytes.
#![tactic(auto)]

#[derive(Clone, Copy)]
pub struct ScalarWords {
    pub name: u64,
    pub width: u64,
    pub bytes: u64,
}

// A type that another names: words and sizes, its scalar, a word.
#[derive(Clone, Copy)]
pub struct Short {
    pub lead: u64,
    pub first: u64,
    pub x: u64,
    pub second: u64,
    pub less: u64,
    pub name: u64,
    pub width: u64,
    pub bytes: u64,
    pub close: u64,
}
