// Binary but Multiply, Relational and As: proc/typifier.rs, lines 560 to 564, 623 to 660, 666 to 684 and 733 to 773.
// `reads` reads the operand and looks into its type; `by_form` says what follows from the form.
#![tactic(auto)]

pub mod by_form;
pub mod by_operator;
pub mod reads;
