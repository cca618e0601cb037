// Binary and Relational.
ghost use Rattle.std.specs.Prelude.{◌≡◌};
ghost use Rattle.row_operands.specs.Context.{rules};
ghost use Rattle.rule_rows.specs.Operators.{binary, binary_by, relational};
ghost use Rattle.rule_rows.specs.Answered.{to_result};

use super::reads::{bools, logical};
use answers::Answer;
use ir::{BinaryOperator, RelationalFunction, RowNumber, Scalar};
use row_multiply::reads::multiply;
use row_operands::ResolveContext;
use row_operands::past::past;
use row_operands::values::scalar_type;
use row_wgsl::reads::wgsl_binary;
use rule_rows::Pass;

// By the operator; all but Multiply read left only.
pub fn binary(
    ctx: &ResolveContext<'_>,
    here: RowNumber,
    op: BinaryOperator,
    left: RowNumber,
    right: RowNumber,
) -> Answer
    ensures { to_result result
        ≡ rules ctx.now (binary here op left right) }
{
    match op {
        BinaryOperator::Add
        | BinaryOperator::Subtract
        | BinaryOperator::Divide
        | BinaryOperator::Modulo
        | BinaryOperator::And
        | BinaryOperator::ExclusiveOr
        | BinaryOperator::InclusiveOr
        | BinaryOperator::ShiftLeft
        | BinaryOperator::ShiftRight => past(ctx, left),
        BinaryOperator::Multiply => multiply(ctx, here, left, right),
        BinaryOperator::Equal
        | BinaryOperator::NotEqual
        | BinaryOperator::Less
        | BinaryOperator::LessEqual
        | BinaryOperator::Greater
        | BinaryOperator::GreaterEqual => bools(ctx, here, left),
        BinaryOperator::LogicalAnd | BinaryOperator::LogicalOr => logical(ctx, here, left),
    }
}

// Binary, by the pass.
pub fn binary_by(
    pass: Pass,
    ctx: &ResolveContext<'_>,
    here: RowNumber,
    op: BinaryOperator,
    left: RowNumber,
    right: RowNumber,
) -> Answer
    ensures { to_result result
        ≡ rules ctx.now (binary_by pass here op left right) }
{
    match pass {
        Pass::First => binary(ctx, here, op, left, right),
        Pass::Second => wgsl_binary(ctx, here, op, left, right),
    }
}

// All and Any read nothing.
pub fn relational(
    ctx: &ResolveContext<'_>,
    here: RowNumber,
    fun: RelationalFunction,
    argument: RowNumber,
) -> Answer
    ensures { to_result result
        ≡ rules ctx.now (relational here fun argument) }
{
    match fun {
        RelationalFunction::All | RelationalFunction::Any => scalar_type(Scalar::BOOL),
        RelationalFunction::IsNan | RelationalFunction::IsInf => bools(ctx, here, argument),
    }
}
