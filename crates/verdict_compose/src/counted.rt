// The verdict on a matrix, an array or a struct: from as many components as it has parts, each as is asked of it.
ghost use Rattle.std.specs.Prelude.{◌≡◌};
ghost use Rattle.row_operands.specs.Context.{earlier, judges};
ghost use Rattle.frames.specs.ForProofs.{value_of, answer_of};
ghost use Rattle.rule_compose.specs.Verdict.{each_part, counted};
ghost use Rattle.rule_compose.specs.Judged.{to_judged};
ghost use Rattle.verdict_compose.specs.declared.Part.TheVariants.{Column, Element};
ghost use Rattle.verdict_compose.specs.Shown.{asked_type};
ghost use Rattle.rule_compose.specs.ForProofs.{parts_in};
ghost use Rattle.verdict_compose.specs.Decided.{asked_of, member_type, like_said, part_by};

use super::by_frame::type_shown;
use super::component::{adds_if, by_end, without_type};
use super::{Decided, Part};
use answers::{ComposeError, Verdict};
use archive::Starts;
use archive_access::families::{component_at, member_at};
use frames::Frame;
use ir::{
    ComponentNumber, MemberNumber, RowNumber, Scalar, TypeInner, TypeNumber, TypeResolution,
    VectorSize,
};
use row_operands::ResolveContext;
use row_operands::past::look_component;
use row_operands::plain::{past_frame, plain_form, type_frame, typed_frame};
use type_methods::compare::compare_types;

// The type of the struct's member of this index.
fn member_type(frames: &[u8], s: Starts, first: MemberNumber, count: u16, i: u32) -> TypeNumber
    ensures { result ≡ member_type frames.now s first count i }
{
    if i < (count as u32) {
        let m = member_at(frames, s, first, i);
        m.ty
    } else {
        TypeNumber(0)
    }
}

// By whether its type is the same as asked; none where a look comes to an unknown kind.
fn by_likeness(i: u32, same: Option<bool>) -> Decided
    ensures { result ≡ like_said i same }
{
    match same {
        None => Err(ComposeError::NewerComponent { index: i }),
        Some(b) => adds_if(i, b, 1),
    }
}

// Component i, which is row n, as a column, by a look into its type.
fn look_column(
    ctx: &ResolveContext<'_>,
    rows: VectorSize,
    scalar: Scalar,
    i: u32,
    n: RowNumber,
) -> Decided
    ensures { result
        ≡ part_by ctx.now.frames.now ctx.now.starts (Column rows scalar) i
        (earlier ctx.now n) }
{
    match look_component(ctx, n) {
        Ok(t) => adds_if(i, t == TypeInner::Vector { size: rows, scalar }, 1),
        Err(end) => by_end(i, end),
    }
}

// Component i, which is row n, as a column: it must be the vector itself. A refusal is seen by the first byte of its
// frame; else it goes by the frame of its type where that shows the form.
fn judge_column(
    ctx: &ResolveContext<'_>,
    rows: VectorSize,
    scalar: Scalar,
    i: u32,
    n: RowNumber,
) -> Decided
    ensures { result
        ≡ part_by ctx.now.frames.now ctx.now.starts (Column rows scalar) i
        (earlier ctx.now n) }
{
    let f = past_frame(ctx, n);
    if f.b0 == 10 {
        return without_type(i, f);
    }
    match plain_form(typed_frame(ctx.frames, ctx.starts, f)) {
        Some(t) => adds_if(i, t == TypeInner::Vector { size: rows, scalar }, 1),
        None => look_column(ctx, rows, scalar, i, n),
    }
}

// Component i by a value, held to type ty by the comparison.
fn by_value(frames: &[u8], s: Starts, ty: TypeNumber, i: u32, form: Option<TypeInner>) -> Decided
    ensures { result ≡ part_by frames.now s (Element ty) i (value_of form) }
{
    match form {
        Some(t) => by_likeness(
            i,
            compare_types(
                frames,
                s,
                TypeResolution::Handle(ty),
                TypeResolution::Value(t),
            ),
        ),
        None => Err(ComposeError::ComponentRefused { index: i }),
    }
}

// Component i by the frame of its row's answer, held to type ty by the comparison.
#[tactic(auto, unfolding(frames::specs::ForProofs::answer_of))]
fn by_answer(frames: &[u8], s: Starts, ty: TypeNumber, i: u32, f: Frame) -> Decided
    ensures { result ≡ part_by frames.now s (Element ty) i (answer_of f) }
{
    let family = f.b0;
    match family {
        8 => {
            let n = f.named();
            by_likeness(
                i,
                compare_types(
                    frames,
                    s,
                    TypeResolution::Handle(ty),
                    TypeResolution::Handle(TypeNumber(n)),
                ),
            )
        }
        9 => by_value(frames, s, ty, i, f.type_form()),
        _ => without_type(i, f),
    }
}

// Component i, which is row n, as an element or a member: it must be of type ty. By the frames of both where these show
// it; a refusal is seen by the first byte of its frame; else by the comparison.
fn judge_type(ctx: &ResolveContext<'_>, ty: TypeNumber, i: u32, n: RowNumber) -> Decided
    ensures { result
        ≡ part_by ctx.now.frames.now ctx.now.starts (Element ty) i (earlier ctx.now n) }
{
    let f = past_frame(ctx, n);
    if type_shown(ctx.frames, ctx.starts, ty, f) {
        return Ok(1);
    }
    if f.b0 == 10 {
        return without_type(i, f);
    }
    if let Some(t) = plain_form(type_frame(ctx.frames, ctx.starts, ty)) {
        if let Some(u) = plain_form(typed_frame(ctx.frames, ctx.starts, f)) {
            return adds_if(i, t == u, 1);
        }
    }
    by_answer(ctx.frames, ctx.starts, ty, i, f)
}

// The type that is asked of component i; a column is asked by its form, and type 0, which no verdict comes to, stands
// for it.
fn asked_type(frames: &[u8], s: Starts, asked: Part, i: u32) -> TypeNumber
    ensures { result ≡ asked_type frames.now s asked i }
{
    match asked {
        Part::Column { rows: _, scalar: _ } => TypeNumber(0),
        Part::Element(base) => base,
        Part::Member { first, count } => member_type(frames, s, first, count, i),
    }
}

// What component i, which is row n, decides.
fn judge_part(ctx: &ResolveContext<'_>, asked: Part, i: u32, n: RowNumber) -> Decided
    ensures { result
        ≡ part_by ctx.now.frames.now ctx.now.starts asked i (earlier ctx.now n) }
{
    match asked {
        Part::Column { rows, scalar } => judge_column(ctx, rows, scalar, i, n),
        _ => judge_type(ctx, asked_type(ctx.frames, ctx.starts, asked, i), i, n),
    }
}

// Each component in order; the first that is not as asked decides.
fn each_part(ctx: &ResolveContext<'_>, asked: Part, first: ComponentNumber, count: u16) -> Verdict
    ensures { to_judged result
        ≡ judges ctx.now
        (each_part (asked_of ctx.now.frames.now ctx.now.starts asked) 0
        (parts_in ctx.now.frames.now ctx.now.starts first count)) }
{
    for i in 0..count as u32 {
        let row = component_at(ctx.frames, ctx.starts, first, i);
        judge_part(ctx, asked, i, row)?;
    }
    Ok(())
}

// The count is checked before any component is come to.
pub fn counted_parts(
    ctx: &ResolveContext<'_>,
    expected: u32,
    asked: Part,
    first: ComponentNumber,
    count: u16,
) -> Verdict
    ensures { to_judged result
        ≡ judges ctx.now (counted expected
        (parts_in ctx.now.frames.now ctx.now.starts first count)
        (each_part (asked_of ctx.now.frames.now ctx.now.starts asked) 0
        (parts_in ctx.now.frames.now ctx.now.starts first count))) }
{
    if expected == (count as u32) {
        each_part(ctx, asked, first, count)
    } else {
        Err(ComposeError::ComponentCount {
            expected,
            given: count as u32,
        })
    }
}
