// Access, AccessIndex, Splat, Swizzle, Load and CooperativeLoad: each reads its operand, looks into its type, and ends
// by the form.
ghost use Rattle.std.specs.Prelude.{◌≡◌};
ghost use Rattle.row_operands.specs.Context.{rules};
ghost use Rattle.rule_rows.specs.Access.{access, access_index, splat, swizzle};
ghost use Rattle.rule_rows.specs.Variables.{load};
ghost use Rattle.rule_rows.specs.Results.{cooperative_load};
ghost use Rattle.rule_rows.specs.Answered.{to_result};

use super::access::{access_into, access_through, splat_of, swizzle_of};
use super::access_index::{index_into, index_through};
use answers::{Answer, Unresolved};
use archive_access::families::type_at;
use ir::{CooperativeRole, CooperativeSize, RowNumber, TypeInner, VectorSize};
use row_operands::ResolveContext;
use row_operands::past::look_into;
use row_variables::results::{base_scalar, cooperative_of};
use row_variables::variables::{load_into, load_through};

pub fn access(ctx: &ResolveContext<'_>, here: RowNumber, base: RowNumber) -> Answer
    ensures { to_result result
        ≡ rules ctx.now (access here base) }
{
    let t = look_into(ctx, here, base)?;
    match t {
        TypeInner::Pointer { base: ty, space } => match type_at(ctx.frames, ctx.starts, ty) {
            Some(inner) => access_through(ty, space, inner),
            None => Err(Unresolved::Newer { row: here }),
        },
        _ => access_into(base, t),
    }
}

pub fn access_index(
    ctx: &ResolveContext<'_>,
    here: RowNumber,
    base: RowNumber,
    index: u32,
) -> Answer
    ensures { to_result result
        ≡ rules ctx.now (access_index here base index) }
{
    let t = look_into(ctx, here, base)?;
    match t {
        TypeInner::Pointer { base: ty, space } => match type_at(ctx.frames, ctx.starts, ty) {
            Some(inner) => index_through(ctx.frames, ctx.starts, base, index, ty, space, inner),
            None => Err(Unresolved::Newer { row: here }),
        },
        _ => index_into(ctx.frames, ctx.starts, base, index, t),
    }
}

pub fn splat(
    ctx: &ResolveContext<'_>,
    here: RowNumber,
    size: VectorSize,
    value: RowNumber,
) -> Answer
    ensures { to_result result
        ≡ rules ctx.now (splat here size value) }
{
    let inner = look_into(ctx, here, value)?;
    splat_of(size, value, inner)
}

pub fn swizzle(
    ctx: &ResolveContext<'_>,
    here: RowNumber,
    size: VectorSize,
    vector: RowNumber,
) -> Answer
    ensures { to_result result
        ≡ rules ctx.now (swizzle here size vector) }
{
    let inner = look_into(ctx, here, vector)?;
    swizzle_of(size, vector, inner)
}

pub fn load(ctx: &ResolveContext<'_>, here: RowNumber, pointer: RowNumber) -> Answer
    ensures { to_result result
        ≡ rules ctx.now (load here pointer) }
{
    let t = look_into(ctx, here, pointer)?;
    match t {
        TypeInner::Pointer { base: ty, space: _ } => match type_at(ctx.frames, ctx.starts, ty) {
            Some(inner) => load_through(ty, inner),
            None => Err(Unresolved::Newer { row: here }),
        },
        _ => load_into(pointer, t),
    }
}

pub fn cooperative_load(
    ctx: &ResolveContext<'_>,
    here: RowNumber,
    columns: CooperativeSize,
    rows: CooperativeSize,
    role: CooperativeRole,
    pointer: RowNumber,
) -> Answer
    ensures { to_result result
        ≡ rules ctx.now
        (cooperative_load here columns rows role pointer) }
{
    let t = look_into(ctx, here, pointer)?;
    match t {
        TypeInner::Pointer { base: ty, space: _ } => match type_at(ctx.frames, ctx.starts, ty) {
            Some(inner) => cooperative_of(columns, rows, role, pointer, inner.scalar()),
            None => Err(Unresolved::Newer { row: here }),
        },
        _ => cooperative_of(
            columns,
            rows,
            role,
            pointer,
            base_scalar(t.pointer_base_type()),
        ),
    }
}
