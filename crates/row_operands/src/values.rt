// Answers: types, by number or by value, and refusals.
ghost use Rattle.std.specs.Prelude.{◌≡◌};
ghost use Rattle.rule.specs.Answers.{number, value, given, refused, told};
ghost use Rattle.rule_rows.specs.Answered.{to_result};

use answers::{Answer, Refusal, Unresolved};
use ir::{
    AddressSpace, CooperativeRole, CooperativeSize, RowNumber, Scalar, TypeInner, TypeNumber,
    TypeResolution, VectorSize,
};

// A type of the file.
pub fn numbered(ty: TypeNumber) -> Answer
    ensures { to_result result ≡ told (given (number ty)) }
{
    Ok(TypeResolution::Handle(ty))
}

pub fn scalar_type(scalar: Scalar) -> Answer
    ensures { to_result result ≡ told (given (value (TypeInner.Scalar scalar))) }
{
    Ok(TypeResolution::Value(TypeInner::Scalar(scalar)))
}

pub fn vector_type(size: VectorSize, scalar: Scalar) -> Answer
    ensures { to_result result ≡ told (given (value (TypeInner.Vector size scalar))) }
{
    Ok(TypeResolution::Value(TypeInner::Vector { size, scalar }))
}

pub fn matrix_type(columns: VectorSize, rows: VectorSize, scalar: Scalar) -> Answer
    ensures { to_result result ≡ told (given (value (TypeInner.Matrix columns rows scalar))) }
{
    Ok(TypeResolution::Value(TypeInner::Matrix {
        columns,
        rows,
        scalar,
    }))
}

pub fn cooperative_type(
    columns: CooperativeSize,
    rows: CooperativeSize,
    scalar: Scalar,
    role: CooperativeRole,
) -> Answer
    ensures { to_result result ≡ told (given (value (TypeInner.CooperativeMatrix columns rows scalar role))) }
{
    Ok(TypeResolution::Value(TypeInner::CooperativeMatrix {
        columns,
        rows,
        scalar,
        role,
    }))
}

pub fn pointer_type(base: TypeNumber, space: AddressSpace) -> Answer
    ensures { to_result result ≡ told (given (value (TypeInner.Pointer base space))) }
{
    Ok(TypeResolution::Value(TypeInner::Pointer { base, space }))
}

pub fn value_pointer_type(size: Option<VectorSize>, scalar: Scalar, space: AddressSpace) -> Answer
    ensures { to_result result ≡ told (given (value (TypeInner.ValuePointer size scalar space))) }
{
    Ok(TypeResolution::Value(TypeInner::ValuePointer {
        size,
        scalar,
        space,
    }))
}

pub fn out_of_bounds(expr: RowNumber, index: u32) -> Answer
    ensures { to_result result ≡ told (refused (Refusal.OutOfBoundsIndex expr index)) }
{
    Err(Unresolved::Refused(Refusal::OutOfBoundsIndex { expr, index }))
}

pub fn invalid_access(expr: RowNumber, indexed: bool) -> Answer
    ensures { to_result result ≡ told (refused (Refusal.InvalidAccess expr indexed)) }
{
    Err(Unresolved::Refused(Refusal::InvalidAccess { expr, indexed }))
}

pub fn invalid_sub_access(ty: TypeNumber, indexed: bool) -> Answer
    ensures { to_result result ≡ told (refused (Refusal.InvalidSubAccess ty indexed)) }
{
    Err(Unresolved::Refused(Refusal::InvalidSubAccess { ty, indexed }))
}

pub fn invalid_scalar(expr: RowNumber) -> Answer
    ensures { to_result result ≡ told (refused (Refusal.InvalidScalar expr)) }
{
    Err(Unresolved::Refused(Refusal::InvalidScalar(expr)))
}

pub fn invalid_vector(expr: RowNumber) -> Answer
    ensures { to_result result ≡ told (refused (Refusal.InvalidVector expr)) }
{
    Err(Unresolved::Refused(Refusal::InvalidVector(expr)))
}

pub fn invalid_pointer(expr: RowNumber) -> Answer
    ensures { to_result result ≡ told (refused (Refusal.InvalidPointer expr)) }
{
    Err(Unresolved::Refused(Refusal::InvalidPointer(expr)))
}

pub fn invalid_image(expr: RowNumber) -> Answer
    ensures { to_result result ≡ told (refused (Refusal.InvalidImage expr)) }
{
    Err(Unresolved::Refused(Refusal::InvalidImage(expr)))
}

pub fn incompatible_operands() -> Answer
    ensures { to_result result ≡ told (refused (Refusal.IncompatibleOperands)) }
{
    Err(Unresolved::Refused(Refusal::IncompatibleOperands))
}
