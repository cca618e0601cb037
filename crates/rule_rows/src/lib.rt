// The rules of rows, in specs/: the source's ResolveContext::resolve (proc/typifier.rs, lines 265 to 826), arm by arm.
// The crates row_* have the code.

#![tactic(auto)]

use ir::{Scalar, VectorSize};

// The pass whose rules type a file's rows. They differ in Binary rows alone: in the first the source types them, in the
// second WGSL's tables.
#[derive(Clone, Copy)]
pub enum Pass {
    First,
    Second,
}

// What WGSL's tables of Binary expressions ask of a type: a scalar or a vector of it, a matrix, or a type that is in no
// line.
#[derive(Clone, Copy)]
pub enum Shape {
    Plain {
        size: Option<VectorSize>,
        scalar: Scalar,
    },
    Matrix {
        columns: VectorSize,
        rows: VectorSize,
        scalar: Scalar,
    },
    Other,
}
