// Binary in the second pass: looks into the left operand's type, then the right's, and ends by their shapes; where
// one shows no form, by the answers in the order that they are read.
ghost use Rattle.std.specs.Prelude.{◌≡◌};
ghost use Rattle.row_operands.specs.Context.{looks, rules};
ghost use Rattle.rule_rows.specs.Operators.{wgsl_binary};
ghost use Rattle.rule_rows.specs.Answered.{to_result};
ghost use Rattle.row_operands.specs.Past.{looked_in};
ghost use Rattle.row_wgsl.specs.ForProofs.{NoLine};

use super::by_operator::{mismatch, shapes_result};
use super::tests::shape_of;
use answers::Answer;
use ir::{BinaryOperator, RowNumber, TypeInner};
use row_operands::ResolveContext;
use row_operands::both::left_end;
use row_operands::past::look_into;
use row_operands::plain::{past_frame, plain_form, typed_frame};

// The left form is known: looks into the right.
fn look_right(
    ctx: &ResolveContext<'_>,
    here: RowNumber,
    op: BinaryOperator,
    left: RowNumber,
    right: RowNumber,
    x: TypeInner,
) -> Answer
    requires seen { looks ctx.now here left ≡ Ok x }
    requires other { NoLine ctx.now.frames.now ctx.now.starts ctx.now.answers.now
        ctx.now.places.now here op left right }
    ensures { to_result result
        ≡ rules ctx.now (wgsl_binary here op left right) }
{
    look_into(ctx, here, right)?;
    mismatch()
}

// One of the two is no scalar, vector or matrix: looks into the left, then into the right; where both are seen it is
// number 41.
fn look_both(
    ctx: &ResolveContext<'_>,
    here: RowNumber,
    op: BinaryOperator,
    left: RowNumber,
    right: RowNumber,
) -> Answer
    requires { NoLine ctx.now.frames.now ctx.now.starts ctx.now.answers.now ctx.now.places.now here op left right }
    ensures { to_result result
        ≡ rules ctx.now (wgsl_binary here op left right) }
{
    match look_into(ctx, here, left) {
        Ok(x) => look_right(ctx, here, op, left, right, x),
        Err(_) => left_end(ctx, here, left, right),
    }
}

// By the frames of both answers, where these show the forms.
pub fn wgsl_binary(
    ctx: &ResolveContext<'_>,
    here: RowNumber,
    op: BinaryOperator,
    left: RowNumber,
    right: RowNumber,
) -> Answer
    ensures { to_result result
        ≡ rules ctx.now (wgsl_binary here op left right) }
{
    let f = past_frame(ctx, left);
    let g = past_frame(ctx, right);
    match plain_form(typed_frame(ctx.frames, ctx.starts, f)) {
        Some(x) => match plain_form(typed_frame(ctx.frames, ctx.starts, g)) {
            Some(y) => shapes_result(op, shape_of(x), shape_of(y)),
            None => look_both(ctx, here, op, left, right),
        },
        None => look_both(ctx, here, op, left, right),
    }
}
