// Access, Splat and Swizzle, by the forms of their operands.
ghost use Rattle.std.specs.Prelude.{◌≡◌};
ghost use Rattle.rule.specs.Answers.{value, told};
ghost use Rattle.rule_rows.specs.Access.{access_component, access_into, access_through, splat_of, swizzle_of};
ghost use Rattle.rule_rows.specs.Answered.{to_result};

use answers::Answer;
use ir::{AddressSpace, RowNumber, Scalar, TypeInner, TypeNumber, VectorSize};
use row_operands::values::{
    invalid_access, invalid_scalar, invalid_sub_access, invalid_vector, numbered, pointer_type,
    scalar_type, value_pointer_type, vector_type,
};

// A component of what a value pointer points at.
fn access_component(
    base: RowNumber,
    scalar: Scalar,
    space: AddressSpace,
    size: Option<VectorSize>,
) -> Answer
    ensures { to_result result ≡ told (access_component base scalar space size) }
{
    match size {
        Some(_) => value_pointer_type(None, scalar, space),
        None => invalid_access(base, false),
    }
}

// A part of a value, or of what a value pointer points at.
pub fn access_into(base: RowNumber, t: TypeInner) -> Answer
    ensures { to_result result ≡ told (access_into base t) }
{
    match t {
        TypeInner::Vector { size: _, scalar } => scalar_type(scalar),
        TypeInner::Matrix {
            columns: _,
            rows,
            scalar,
        } => vector_type(rows, scalar),
        TypeInner::ValuePointer {
            size,
            scalar,
            space,
        } => access_component(base, scalar, space, size),
        TypeInner::Array {
            base: ty,
            size: _,
            stride: _,
        } => numbered(ty),
        TypeInner::BindingArray { base: ty, size: _ } => numbered(ty),
        _ => invalid_access(base, false),
    }
}

// The pointer to a part of a pointer's base.
pub fn access_through(ty: TypeNumber, space: AddressSpace, t: TypeInner) -> Answer
    ensures { to_result result ≡ told (access_through ty space t) }
{
    match t {
        TypeInner::Vector { size: _, scalar } => value_pointer_type(None, scalar, space),
        TypeInner::Matrix {
            columns: _,
            rows,
            scalar,
        } => value_pointer_type(Some(rows), scalar, space),
        TypeInner::Array {
            base,
            size: _,
            stride: _,
        } => pointer_type(base, space),
        TypeInner::BindingArray { base, size: _ } => pointer_type(base, space),
        _ => invalid_sub_access(ty, false),
    }
}

pub fn splat_of(size: VectorSize, value: RowNumber, t: TypeInner) -> Answer
    ensures { to_result result ≡ told (splat_of size value t) }
{
    match t {
        TypeInner::Scalar(scalar) => vector_type(size, scalar),
        _ => invalid_scalar(value),
    }
}

pub fn swizzle_of(size: VectorSize, vector: RowNumber, t: TypeInner) -> Answer
    ensures { to_result result ≡ told (swizzle_of size vector t) }
{
    match t {
        TypeInner::Vector { size: _, scalar } => vector_type(size, scalar),
        _ => invalid_vector(vector),
    }
}
