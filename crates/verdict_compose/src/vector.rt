// The verdict on a vector: from scalars and vectors of its scalar, which add up to its size.
ghost use Rattle.std.specs.Prelude.{◌≡◌};
ghost use Rattle.row_operands.specs.Context.{earlier, judges};
ghost use Rattle.ir.specs.Scalars.{equal_scalars};
ghost use Rattle.frames.specs.Fields.{read, scalar};
ghost use Rattle.rule_compose.specs.Verdict.{vector_parts, adds};
ghost use Rattle.rule_compose.specs.Judged.{to_judged};
ghost use Rattle.rule_compose.specs.ForProofs.{parts_in};
ghost use Rattle.verdict_compose.specs.Decided.{count_decides, added_by};

use super::Decided;
use super::component::{adds_if, by_end, without_type};
use answers::{ComposeError, Verdict};
use archive_access::families::component_at;
use frames::Frame;
use ir::{ComponentNumber, RowNumber, Scalar, TypeInner, VectorSize};
use row_operands::ResolveContext;
use row_operands::past::look_component;
use row_operands::plain::{past_frame, typed_frame};

// How many components of a vector of `scalar` a type makes.
fn count_added(i: u32, scalar: Scalar, t: TypeInner) -> Decided
    ensures { result ≡ count_decides i (adds scalar t) }
{
    match t {
        TypeInner::Scalar(k) => adds_if(i, k == scalar, 1),
        TypeInner::Vector { size, scalar: k } => adds_if(i, k == scalar, u32::from(size)),
        _ => Err(ComposeError::ComponentType { index: i }),
    }
}

// What component i, which is row n, adds to a vector, by a look into its type.
fn look_added(ctx: &ResolveContext<'_>, scalar: Scalar, i: u32, n: RowNumber) -> Decided
    ensures { result
        ≡ added_by ctx.now.frames.now ctx.now.starts scalar i (earlier ctx.now n) }
{
    match look_component(ctx, n) {
        Ok(t) => count_added(i, scalar, t),
        Err(end) => by_end(i, end),
    }
}

// Whether the scalar of a frame is k: its two bytes are k's, or read as k.
fn scalar_is(f: Frame, k: Scalar) -> bool
    ensures { result ≡ equal_scalars (read scalar f) k }
{
    let kind = k.kind;
    let width = k.width;
    if (f.b4 == u8::from(kind)) & (f.b5 == u8::from(width)) {
        true
    } else {
        let own = f.scalar();
        own == k
    }
}

// What component i, which is row n, adds to a vector: a refusal is seen by the first byte of its frame; else it goes by
// the frame of its type where that is a scalar or a vector.
fn added_by(ctx: &ResolveContext<'_>, scalar: Scalar, i: u32, n: RowNumber) -> Decided
    ensures { result
        ≡ added_by ctx.now.frames.now ctx.now.starts scalar i (earlier ctx.now n) }
{
    let f = past_frame(ctx, n);
    if f.b0 == 10 {
        return without_type(i, f);
    }
    let g = typed_frame(ctx.frames, ctx.starts, f);
    let kind = g.b1;
    match kind {
        1 => adds_if(i, scalar_is(g, scalar), 1),
        2 => {
            let size = VectorSize::from(g.b2);
            adds_if(i, scalar_is(g, scalar), u32::from(size))
        }
        _ => look_added(ctx, scalar, i, n),
    }
}

// Each component adds to the total, which is checked last.
pub fn vector_parts(
    ctx: &ResolveContext<'_>,
    size: VectorSize,
    scalar: Scalar,
    first: ComponentNumber,
    count: u16,
) -> Verdict
    ensures { to_judged result
        ≡ judges ctx.now
        (vector_parts size scalar 0 0 (parts_in ctx.now.frames.now ctx.now.starts first count)) }
{
    let mut total = 0;
    for i in 0..count as u32 {
        let row = component_at(ctx.frames, ctx.starts, first, i);
        total += added_by(ctx, scalar, i, row)?;
    }
    let expected = u32::from(size);
    if expected == total {
        Ok(())
    } else {
        Err(ComposeError::ComponentCount {
            expected,
            given: total,
        })
    }
}
