// Comparisons, logical operators, IsNan, IsInf and As: each reads its operand, looks into its type, and ends by the
// form.
ghost use Rattle.std.specs.Prelude.{◌≡◌};
ghost use Rattle.row_operands.specs.Context.{rules};
ghost use Rattle.rule_rows.specs.Steps.{by_type};
ghost use Rattle.rule_rows.specs.Operators.{bools_of, logical, cast};
ghost use Rattle.rule_rows.specs.Answered.{to_result};

use super::by_form::{bools_of, cast_of, logical_of};
use answers::Answer;
use ir::{RowNumber, ScalarKind, Width};
use row_operands::ResolveContext;
use row_operands::past::look_into;

// Equal, NotEqual, Less, LessEqual, Greater, GreaterEqual; IsNan and IsInf.
pub fn bools(ctx: &ResolveContext<'_>, here: RowNumber, n: RowNumber) -> Answer
    ensures { to_result result
        ≡ rules ctx.now (by_type here n bools_of) }
{
    let inner = look_into(ctx, here, n)?;
    bools_of(inner)
}

// LogicalAnd and LogicalOr.
pub fn logical(ctx: &ResolveContext<'_>, here: RowNumber, left: RowNumber) -> Answer
    ensures { to_result result
        ≡ rules ctx.now (logical here left) }
{
    let inner = look_into(ctx, here, left)?;
    logical_of(inner)
}

pub fn cast(
    ctx: &ResolveContext<'_>,
    here: RowNumber,
    expr: RowNumber,
    kind: ScalarKind,
    convert: Option<Width>,
) -> Answer
    ensures { to_result result
        ≡ rules ctx.now (cast here expr kind convert) }
{
    let inner = look_into(ctx, here, expr)?;
    cast_of(kind, convert, inner)
}
