// Multiply: proc/typifier.rs, lines 565 to 622. `reads` reads both operands and looks into their types; `by_form` says
// what follows from the forms.
#![tactic(auto)]

pub mod by_form;
pub mod reads;

use ir::TypeInner;

// The type of a product: the left or the right operand's, as it is, or a value.
#[derive(Clone, Copy)]
pub enum Times {
    Left,
    Right,
    Value(TypeInner),
    Incompatible,
}
