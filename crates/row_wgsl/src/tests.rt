// What WGSL's tables ask of types: their shapes, kinds and sizes.
ghost use Rattle.std.specs.Prelude.{◌≡◌};
ghost use Rattle.rule_rows.specs.Wgsl.{shape_of, is_integer, is_float, is_numeric, equal_sizes, equal_counts};
ghost use Rattle.rule_rows.specs.Wgsl.{like_or_mixed};
ghost use Rattle.rule_rows.specs.Wgsl.{mixed};

use ir::{ScalarKind, TypeInner, VectorSize};
use rule_rows::Shape;

pub fn shape_of(t: TypeInner) -> Shape
    ensures { result ≡ shape_of t }
{
    match t {
        TypeInner::Scalar(scalar) => Shape::Plain { size: None, scalar },
        TypeInner::Vector { size, scalar } => Shape::Plain {
            size: Some(size),
            scalar,
        },
        TypeInner::Matrix {
            columns,
            rows,
            scalar,
        } => Shape::Matrix {
            columns,
            rows,
            scalar,
        },
        _ => Shape::Other,
    }
}

pub fn is_integer(kind: ScalarKind) -> bool
    ensures { result ≡ is_integer kind }
{
    match kind {
        ScalarKind::Sint => true,
        ScalarKind::Uint => true,
        ScalarKind::Float => false,
        ScalarKind::Bool => false,
        ScalarKind::AbstractInt => false,
        ScalarKind::AbstractFloat => false,
    }
}

pub fn is_float(kind: ScalarKind) -> bool
    ensures { result ≡ is_float kind }
{
    match kind {
        ScalarKind::Sint => false,
        ScalarKind::Uint => false,
        ScalarKind::Float => true,
        ScalarKind::Bool => false,
        ScalarKind::AbstractInt => false,
        ScalarKind::AbstractFloat => false,
    }
}

pub fn is_numeric(kind: ScalarKind) -> bool
    ensures { result ≡ is_numeric kind }
{
    is_integer(kind) | is_float(kind)
}

// The same, or a scalar and a vector in either order.
pub fn like_or_mixed(n: Option<VectorSize>, m: Option<VectorSize>) -> bool
    ensures { result ≡ like_or_mixed n m }
{
    match n {
        None => true,
        Some(a) => match m {
            None => true,
            Some(b) => a == b,
        },
    }
}

// The components of such a result.
pub fn mixed(n: Option<VectorSize>, m: Option<VectorSize>) -> Option<VectorSize>
    ensures { result ≡ mixed n m }
{
    match n {
        None => m,
        Some(_) => n,
    }
}
