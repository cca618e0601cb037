// What follows for AccessIndex from the forms that its rule has looked into: the source's ResolveContext::resolve
// (proc/typifier.rs), arm by arm.
ghost use Rattle.std.specs.Prelude.{◌≡◌};
ghost use Rattle.std.proofs.Math.ListN.{get_elem?};
ghost use Rattle.ir.specs.Numbers.{vector_size_number};
ghost use Rattle.rule.specs.Answers.{value, told};
ghost use Rattle.rule.specs.Things.{member_types};
ghost use Rattle.rule_rows.specs.Access.{bounded, member, member_pointer, index_component, index_into, index_through};
ghost use Rattle.rule_rows.specs.Answered.{to_result};
ghost use Rattle.rule_rows.specs.ForProofs.{members_in};

use answers::Answer;
use archive::Starts;
use archive_access::families::member_at;
use ir::{AddressSpace, MemberNumber, RowNumber, Scalar, TypeInner, TypeNumber, VectorSize};
use row_operands::values::{
    invalid_access, invalid_sub_access, numbered, out_of_bounds, pointer_type, scalar_type,
    value_pointer_type, vector_type,
};

// A component of a vector, bounded by its size.
fn component(base: RowNumber, index: u32, size: VectorSize, scalar: Scalar) -> Answer
    ensures { to_result result
        ≡ told (bounded base index (vector_size_number size) (value (TypeInner.Scalar scalar))) }
{
    if index < u32::from(size) {
        scalar_type(scalar)
    } else {
        out_of_bounds(base, index)
    }
}

// A column of a matrix, bounded by its columns.
fn column(
    base: RowNumber,
    index: u32,
    columns: VectorSize,
    rows: VectorSize,
    scalar: Scalar,
) -> Answer
    ensures { to_result result
        ≡ told (bounded base index (vector_size_number columns) (value (TypeInner.Vector rows scalar))) }
{
    if index < u32::from(columns) {
        vector_type(rows, scalar)
    } else {
        out_of_bounds(base, index)
    }
}

// The value pointer to a component or a column, below the bound.
fn part_pointer(
    base: RowNumber,
    index: u32,
    bound: VectorSize,
    size: Option<VectorSize>,
    scalar: Scalar,
    space: AddressSpace,
) -> Answer
    ensures { to_result result
        ≡ told (bounded base index (vector_size_number bound) (value (TypeInner.ValuePointer size scalar space))) }
{
    if index < u32::from(bound) {
        value_pointer_type(size, scalar, space)
    } else {
        out_of_bounds(base, index)
    }
}

// A member of a struct.
fn member(
    frames: &[u8],
    s: Starts,
    base: RowNumber,
    index: u32,
    first: MemberNumber,
    count: u16,
) -> Answer
    ensures { to_result result
        ≡ told (member base index (get_elem? (members_in frames.now s first count) index)) }
{
    if index < (count as u32) {
        let m = member_at(frames, s, first, index);
        let ty = m.ty;
        numbered(ty)
    } else {
        out_of_bounds(base, index)
    }
}

// The pointer to a member of a struct.
fn member_pointer(
    frames: &[u8],
    s: Starts,
    base: RowNumber,
    index: u32,
    space: AddressSpace,
    first: MemberNumber,
    count: u16,
) -> Answer
    ensures { to_result result
        ≡ told (member_pointer base index space (get_elem? (members_in frames.now s first count) index)) }
{
    if index < (count as u32) {
        let m = member_at(frames, s, first, index);
        let ty = m.ty;
        pointer_type(ty, space)
    } else {
        out_of_bounds(base, index)
    }
}

// A component of what a value pointer points at.
fn index_component(
    base: RowNumber,
    index: u32,
    scalar: Scalar,
    space: AddressSpace,
    size: Option<VectorSize>,
) -> Answer
    ensures { to_result result ≡ told (index_component base index scalar space size) }
{
    match size {
        Some(size) => part_pointer(base, index, size, None, scalar, space),
        None => invalid_access(base, true),
    }
}

// Part `index` of a value, or of what a value pointer points at.
pub fn index_into(frames: &[u8], s: Starts, base: RowNumber, index: u32, t: TypeInner) -> Answer
    ensures { to_result result ≡ told (index_into base index (member_types frames.now s t) t) }
{
    match t {
        TypeInner::Vector { size, scalar } => component(base, index, size, scalar),
        TypeInner::Matrix {
            columns,
            rows,
            scalar,
        } => column(base, index, columns, rows, scalar),
        TypeInner::ValuePointer {
            size,
            scalar,
            space,
        } => index_component(base, index, scalar, space, size),
        TypeInner::Array {
            base: ty,
            size: _,
            stride: _,
        } => numbered(ty),
        TypeInner::Struct {
            first,
            count,
            span: _,
        } => member(frames, s, base, index, first, count),
        TypeInner::BindingArray { base: ty, size: _ } => numbered(ty),
        _ => invalid_access(base, true),
    }
}

// The pointer to part `index` of a pointer's base.
pub fn index_through(
    frames: &[u8],
    s: Starts,
    base: RowNumber,
    index: u32,
    ty: TypeNumber,
    space: AddressSpace,
    t: TypeInner,
) -> Answer
    ensures { to_result result ≡ told (index_through base index ty space (member_types frames.now s t) t) }
{
    match t {
        TypeInner::Vector { size, scalar } => part_pointer(base, index, size, None, scalar, space),
        TypeInner::Matrix {
            columns,
            rows,
            scalar,
        } => part_pointer(base, index, columns, Some(rows), scalar, space),
        TypeInner::Array {
            base: to,
            size: _,
            stride: _,
        } => pointer_type(to, space),
        TypeInner::Struct {
            first,
            count,
            span: _,
        } => member_pointer(frames, s, base, index, space, first, count),
        TypeInner::BindingArray { base: to, size: _ } => pointer_type(to, space),
        _ => invalid_sub_access(ty, true),
    }
}
