// What ends a row that reads two operands, left and then right, and looks into left and then right, where the left
// shows no form.
ghost use Rattle.std.specs.Prelude.{◌≡◌};
ghost use Rattle.row_operands.specs.Context.{earlier};
ghost use Rattle.rule_rows.specs.Answered.{to_result};
ghost use Rattle.row_operands.specs.Past.{right_end, left_end};

use super::ResolveContext;
use super::past::past;
use answers::{Answer, Unresolved};
use ir::RowNumber;

// The left type is of unknown kind: the right's refusal, if it has one, comes first.
fn right_end(ctx: &ResolveContext<'_>, here: RowNumber, right: RowNumber) -> Answer
    ensures { to_result result ≡ right_end here (earlier ctx.now right) }
{
    let answer = past(ctx, right);
    match answer {
        Ok(_) => Err(Unresolved::Newer { row: here }),
        Err(Unresolved::Refused(_)) => answer,
        Err(Unresolved::Newer { row: _ }) => answer,
    }
}

// The left operand shows no form.
pub fn left_end(
    ctx: &ResolveContext<'_>,
    here: RowNumber,
    left: RowNumber,
    right: RowNumber,
) -> Answer
    ensures { to_result result
        ≡ left_end here (earlier ctx.now right)
        (earlier ctx.now left) }
{
    let answer = past(ctx, left);
    match answer {
        Ok(_) => right_end(ctx, here, right),
        Err(Unresolved::Refused(_)) => answer,
        Err(Unresolved::Newer { row: _ }) => answer,
    }
}
