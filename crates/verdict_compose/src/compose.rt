// The verdict on a compose: the source's validate_compose (valid/compose.rs), by the rule that stands in crate
// rule_compose.
ghost use Rattle.std.specs.Prelude.{◌≡◌};
ghost use Rattle.row_operands.specs.Context.{judges};
ghost use Rattle.rule.specs.Things.{member_types};
ghost use Rattle.rule_compose.specs.Verdict.{verdict, by_form, array_parts};
ghost use Rattle.rule_compose.specs.Judged.{to_judged};
ghost use Rattle.rule_compose.specs.ForProofs.{parts_in};

use super::Part;
use super::counted::counted_parts;
use super::vector::vector_parts;
use answers::{ComposeError, Verdict};
use archive_access::families::type_at;
use ir::{ArraySize, ComponentNumber, TypeInner, TypeNumber};
use row_operands::ResolveContext;

#[tactic(auto, unfolding(rule_rows::specs::OverBuffer::judged_by))]
fn array_parts(
    ctx: &ResolveContext<'_>,
    base: TypeNumber,
    size: ArraySize,
    first: ComponentNumber,
    count: u16,
) -> Verdict
    ensures { to_judged result
        ≡ judges ctx.now
        (array_parts base size (parts_in ctx.now.frames.now ctx.now.starts first count)) }
{
    match size {
        ArraySize::Constant(n) => counted_parts(ctx, n, Part::Element(base), first, count),
        ArraySize::Pending(_) => Err(ComposeError::ComposedType),
        ArraySize::Dynamic => Err(ComposeError::ComposedType),
    }
}

// By the composed type's form.
#[tactic(auto, unfolding(rule_rows::specs::OverBuffer::judged_by))]
fn by_form(ctx: &ResolveContext<'_>, t: TypeInner, first: ComponentNumber, count: u16) -> Verdict
    ensures { to_judged result
        ≡ judges ctx.now
        (by_form (parts_in ctx.now.frames.now ctx.now.starts first count)
        (member_types ctx.now.frames.now ctx.now.starts t) t) }
{
    match t {
        TypeInner::Vector { size, scalar } => vector_parts(ctx, size, scalar, first, count),
        TypeInner::Matrix {
            columns,
            rows,
            scalar,
        } => counted_parts(
            ctx,
            u32::from(columns),
            Part::Column { rows, scalar },
            first,
            count,
        ),
        TypeInner::Array {
            base,
            size,
            stride: _,
        } => array_parts(ctx, base, size, first, count),
        TypeInner::Struct {
            first: m,
            count: n,
            span: _,
        } => counted_parts(
            ctx,
            n as u32,
            Part::Member { first: m, count: n },
            first,
            count,
        ),
        _ => Err(ComposeError::ComposedType),
    }
}

// The verdict on a compose of type `ty` from the `count` components from `first` on.
pub fn judge(
    ctx: &ResolveContext<'_>,
    ty: TypeNumber,
    first: ComponentNumber,
    count: u16,
) -> Verdict
    ensures { to_judged result
        ≡ judges ctx.now
        (verdict ty (parts_in ctx.now.frames.now ctx.now.starts first count)) }
{
    match type_at(ctx.frames, ctx.starts, ty) {
        Some(t) => by_form(ctx, t, first, count),
        None => Err(ComposeError::NewerComposed),
    }
}
