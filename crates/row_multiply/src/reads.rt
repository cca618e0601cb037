// Multiply: looks into the left operand's type, then the right's, and ends by the forms; where one shows no form, by
// the answers in the order that they are read. Where the frames of both answers show scalars, vectors or matrices, it
// ends by these.
ghost use Rattle.std.specs.Prelude.{◌≡◌};
ghost use Rattle.row_operands.specs.Context.{earlier, looks, rules};
ghost use Rattle.rule_rows.specs.Operators.{multiply};
ghost use Rattle.rule_rows.specs.Answered.{to_result};
ghost use Rattle.row_operands.specs.Past.{looked_in};
ghost use Rattle.row_multiply.specs.Timed.{times_of};

use super::Times;
use super::by_form::product;
use answers::{Answer, Refusal, Unresolved};
use ir::{RowNumber, TypeInner, TypeResolution};
use row_operands::ResolveContext;
use row_operands::both::left_end;
use row_operands::past::{ended, look_into, past};
use row_operands::plain::{past_frame, plain_form, typed_frame};

// Where the type of one operand is the answer, it is read.
fn times(ctx: &ResolveContext<'_>, left: RowNumber, right: RowNumber, by: Times) -> Answer
    ensures { to_result result
        ≡ times_of (earlier ctx.now left)
        (earlier ctx.now right) by }
{
    match by {
        Times::Left => past(ctx, left),
        Times::Right => past(ctx, right),
        Times::Value(t) => Ok(TypeResolution::Value(t)),
        Times::Incompatible => Err(Unresolved::Refused(Refusal::IncompatibleOperands)),
    }
}

// The left form is known: looks into the right.
fn look_right(
    ctx: &ResolveContext<'_>,
    here: RowNumber,
    left: RowNumber,
    right: RowNumber,
    x: TypeInner,
) -> Answer
    requires { looks ctx.now here left ≡ Ok x }
    ensures { to_result result
        ≡ rules ctx.now (multiply here left right) }
{
    let y = look_into(ctx, here, right)?;
    times(ctx, left, right, product(x, y))
}

// Looks into the left, then into the right.
fn look_both(ctx: &ResolveContext<'_>, here: RowNumber, left: RowNumber, right: RowNumber) -> Answer
    ensures { to_result result
        ≡ rules ctx.now (multiply here left right) }
{
    match look_into(ctx, here, left) {
        Ok(x) => look_right(ctx, here, left, right, x),
        Err(_) => left_end(ctx, here, left, right),
    }
}

// By the frames of both answers, where these show the forms.
pub fn multiply(
    ctx: &ResolveContext<'_>,
    here: RowNumber,
    left: RowNumber,
    right: RowNumber,
) -> Answer
    ensures { to_result result
        ≡ rules ctx.now (multiply here left right) }
{
    let f = past_frame(ctx, left);
    let g = past_frame(ctx, right);
    match plain_form(typed_frame(ctx.frames, ctx.starts, f)) {
        Some(x) => match plain_form(typed_frame(ctx.frames, ctx.starts, g)) {
            Some(y) => times(ctx, left, right, product(x, y)),
            None => look_both(ctx, here, left, right),
        },
        None => look_both(ctx, here, left, right),
    }
}
