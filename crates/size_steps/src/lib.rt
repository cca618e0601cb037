// What a type fills, one step at a time: scalars, vectors and matrices (leaves), an array and a struct from what their
// parts fill (steps), and what is kept and handed back of it (table).
#![tactic(auto)]

use ir::TypeNumber;
use rule_sizes::{Alignment, SizeFault};

pub mod leaves;
pub mod steps;
pub mod table;

// The members of a struct so far: their greatest alignment, where the last one ends, and whether all stand well; that
// they end at 2 to the 32 or later, so that no size holds them; or the lowest faulty type.
#[derive(Clone, Copy)]
pub enum SoFar {
    Laid {
        align: Alignment,
        end: u32,
        placed: bool,
    },
    Past,
    Broken {
        fault: SizeFault,
        place: TypeNumber,
    },
}
