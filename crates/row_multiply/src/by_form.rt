// What follows for Multiply from the forms that its rule has looked into.
//
// The branches stand in the order of WGSL's tables ("Arithmetic Expressions"), each under its line; where WGSL has no
// line they are the source's own, and come after. What a branch asks is the source's in all of them
// (ResolveContext::resolve, proc/typifier.rs): the kinds of the two types, and neither sizes nor scalars.
ghost use Rattle.std.specs.Prelude.{◌≡◌};
ghost use Rattle.rule.specs.Answers.{TypeAnswer};
ghost use Rattle.rule_rows.specs.Operators.{product};
ghost use Rattle.row_multiply.specs.Timed.{timed};

use super::Times;
use ir::TypeInner;

pub fn product(left: TypeInner, right: TypeInner) -> Times
    ensures { (a b : TypeAnswer) → product a b left right ≡ timed a b result }
{
    // "Binary arithmetic expressions": T * T : T, of a scalar.
    if let TypeInner::Scalar(_) = left {
        if let TypeInner::Scalar(_) = right {
            return Times::Right;
        }
    }
    // T * T : T, of a vector.
    if let TypeInner::Vector { .. } = left {
        if let TypeInner::Vector { .. } = right {
            return Times::Left;
        }
    }
    // "Binary arithmetic expressions with mixed scalar and vector operands": vecN<S> * S : vecN<S>.
    if let TypeInner::Vector { .. } = left {
        if let TypeInner::Scalar(_) = right {
            return Times::Left;
        }
    }
    // S * vecN<S> : vecN<S>.
    if let TypeInner::Scalar(_) = left {
        if let TypeInner::Vector { .. } = right {
            return Times::Right;
        }
    }
    // "Matrix arithmetic": matCxR<T> * T : matCxR<T>.
    if let TypeInner::Matrix { .. } = left {
        if let TypeInner::Scalar(_) = right {
            return Times::Left;
        }
    }
    // T * matCxR<T> : matCxR<T>.
    if let TypeInner::Scalar(_) = left {
        if let TypeInner::Matrix { .. } = right {
            return Times::Right;
        }
    }
    // matCxR<T> * vecC<T> : vecR<T>.
    if let TypeInner::Vector { .. } = right {
        if let TypeInner::Matrix {
            rows: size,
            scalar,
            ..
        } = left
        {
            return Times::Value(TypeInner::Vector { size, scalar });
        }
    }
    // vecR<T> * matCxR<T> : vecC<T>.
    if let TypeInner::Vector { .. } = left {
        if let TypeInner::Matrix {
            columns: size,
            scalar,
            ..
        } = right
        {
            return Times::Value(TypeInner::Vector { size, scalar });
        }
    }
    // matKxR<T> * matCxK<T> : matCxR<T>.
    if let TypeInner::Matrix { rows, scalar, .. } = left {
        if let TypeInner::Matrix { columns, .. } = right {
            return Times::Value(TypeInner::Matrix {
                columns,
                rows,
                scalar,
            });
        }
    }
    // The source's own: a scalar and any other type.
    if let TypeInner::Scalar(_) = left {
        return Times::Right;
    }
    // The source's own: any other type and a scalar.
    if let TypeInner::Scalar(_) = right {
        return Times::Left;
    }
    // The source's own: two cooperative matrices, as matrices.
    if let TypeInner::CooperativeMatrix {
        rows,
        scalar,
        role,
        ..
    } = left
    {
        if let TypeInner::CooperativeMatrix { columns, .. } = right {
            return Times::Value(TypeInner::CooperativeMatrix {
                columns,
                rows,
                scalar,
                role,
            });
        }
    }
    Times::Incompatible
}
