// Where each family of a file begins, and what the file holds by its numbers (document 01, "The file"): number 4, the
// order of the frames; types, members, items, rows and components.
#![tactic(auto)]

pub mod families;
pub mod order;
