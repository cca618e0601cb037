// The bytes that a type fills (document 02, request 5), as rules, in specs/: alignment and size by WGSL's memory
// layout section. Crates size_steps, size_pending, size_needs and type_sizes have the code.
#![tactic(auto)]

use answers::QueryError;
use ir::TypeNumber;

// What a type is aligned to, in bytes.
#[derive(Clone, Copy)]
pub enum Alignment {
    Two,
    Four,
    Eight,
    Sixteen,
}

// Numbers 42, 43 and 44.
#[derive(Clone, Copy)]
pub enum SizeFault {
    Unmeasured,
    Misplaced,
    Huge,
}

// Alignment and size, or the lowest faulty type.
#[derive(Clone, Copy)]
pub enum Measure {
    Fills { align: Alignment, size: u32 },
    Faulty { fault: SizeFault, place: TypeNumber },
}

// What is said of a type's size: its measure, or why there is none.
pub type TypeSize = Result<Measure, QueryError>;
