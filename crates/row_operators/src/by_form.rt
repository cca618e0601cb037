// Comparisons, Relational, logical operators and As, by the form of an operand.
ghost use Rattle.std.specs.Prelude.{◌≡◌};
ghost use Rattle.rule.specs.Answers.{told};
ghost use Rattle.rule_rows.specs.Operators.{bools_of, logical_of, width_or, cast_of};
ghost use Rattle.rule_rows.specs.Answered.{to_result};

use answers::Answer;
use ir::{Scalar, ScalarKind, TypeInner, Width};
use row_operands::values::{incompatible_operands, matrix_type, scalar_type, vector_type};

// A bool for each component.
pub fn bools_of(t: TypeInner) -> Answer
    ensures { to_result result ≡ told (bools_of t) }
{
    match t {
        TypeInner::Scalar(_) => scalar_type(Scalar::BOOL),
        TypeInner::Vector { size, scalar: _ } => vector_type(size, Scalar::BOOL),
        _ => incompatible_operands(),
    }
}

// Exactly the scalar type BOOL.
pub fn logical_of(t: TypeInner) -> Answer
    ensures { to_result result ≡ told (logical_of t) }
{
    match t {
        TypeInner::Scalar(scalar) => {
            if scalar == Scalar::BOOL {
                scalar_type(Scalar::BOOL)
            } else {
                incompatible_operands()
            }
        },
        _ => incompatible_operands(),
    }
}

// The width converted to, or the own one.
fn width_or(convert: Option<Width>, own: Width) -> Width
    ensures { result ≡ width_or convert own }
{
    match convert {
        Some(width) => width,
        None => own,
    }
}

// A scalar or a vector takes the kind, a matrix keeps its own.
pub fn cast_of(kind: ScalarKind, convert: Option<Width>, t: TypeInner) -> Answer
    ensures { to_result result ≡ told (cast_of kind convert t) }
{
    match t {
        TypeInner::Scalar(scalar) => {
            let had = scalar.width;
            let width = width_or(convert, had);
            scalar_type(Scalar { kind, width })
        },
        TypeInner::Vector { size, scalar } => {
            let had = scalar.width;
            let width = width_or(convert, had);
            vector_type(size, Scalar { kind, width })
        },
        TypeInner::Matrix {
            columns,
            rows,
            scalar,
        } => {
            let own = scalar.kind;
            let had = scalar.width;
            let width = width_or(convert, had);
            matrix_type(columns, rows, Scalar { kind: own, width })
        },
        _ => incompatible_operands(),
    }
}
