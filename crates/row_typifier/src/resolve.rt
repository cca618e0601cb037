// ResolveContext::resolve (proc/typifier.rs, lines 265 to 826): the rule of every row.
ghost use Rattle.std.specs.Prelude.{◌≡◌};
ghost use Rattle.row_operands.specs.Context.{rules};
ghost use Rattle.rule.specs.Things.{shown};
ghost use Rattle.rule_rows.specs.Typed.{typed};
ghost use Rattle.rule_rows.specs.Answered.{to_result};
ghost use Rattle.row_operands.specs.Past.{ruled_shown};

use answers::{Answer, Unresolved};
use archive_access::families::row_at;
use ir::{Expression, RowNumber, Scalar, VectorSize};
use row_access::reads::{access, access_index, cooperative_load, load, splat, swizzle};
use row_images::reads::{image_query, image_sample, sampled};
use row_operands::ResolveContext;
use row_operands::past::past;
use row_operands::values::{numbered, scalar_type, vector_type};
use row_operators::by_operator::{binary_by, relational};
use row_operators::reads::cast;
use row_variables::results::{call_result, special};
use row_variables::variables::{
    declared, function_argument, global_variable, literal, local_variable,
};
use rule_rows::Pass;

// The type of the row `here`, whose expression is e, by the rules of a pass, in the order of the source's arms. Math is
// newer.
pub fn resolve(pass: Pass, ctx: &ResolveContext<'_>, here: RowNumber, e: Expression) -> Answer
    ensures { to_result result
        ≡ ruled_shown pass ctx.now.frames.now ctx.now.starts ctx.now.answers.now ctx.now.places.now here
        (shown ctx.now.frames.now ctx.now.starts e) }
{
    match e {
        Expression::Access { base } => access(ctx, here, base),
        Expression::AccessIndex { base, index } => access_index(ctx, here, base, index),
        Expression::Splat { size, value } => splat(ctx, here, size, value),
        Expression::Swizzle { size, vector } => swizzle(ctx, here, size, vector),
        Expression::Literal(l) => literal(l),
        Expression::Constant(n) => declared(ctx.frames, ctx.starts.constants, n),
        Expression::Override(n) => declared(ctx.frames, ctx.starts.overrides, n),
        Expression::ZeroValue(ty) => numbered(ty),
        Expression::Compose {
            ty,
            count: _,
            first: _,
        } => numbered(ty),
        Expression::FunctionArgument(index) => function_argument(ctx.frames, ctx.starts, index),
        Expression::GlobalVariable(n) => global_variable(ctx.frames, ctx.starts, n),
        Expression::LocalVariable(n) => local_variable(ctx.frames, ctx.starts, n),
        Expression::Load { pointer } => load(ctx, here, pointer),
        Expression::ImageSample { image, gather } => image_sample(ctx, here, image, gather),
        Expression::ImageLoad { image } => sampled(ctx, here, image),
        Expression::ImageQuery { image, query } => image_query(ctx, here, image, query),
        Expression::Unary { expr } => past(ctx, expr),
        Expression::Binary { op, left, right } => binary_by(pass, ctx, here, op, left, right),
        Expression::AtomicResult { ty } => numbered(ty),
        Expression::SubgroupOperationResult { ty } => numbered(ty),
        Expression::WorkGroupUniformLoadResult { ty } => numbered(ty),
        Expression::Select { accept } => past(ctx, accept),
        Expression::Derivative { expr } => past(ctx, expr),
        Expression::Relational { fun, argument } => relational(ctx, here, fun, argument),
        Expression::Math => Err(Unresolved::Newer { row: here }),
        Expression::As {
            expr,
            kind,
            convert,
        } => cast(ctx, here, expr, kind, convert),
        Expression::CallResult(n) => call_result(ctx.frames, ctx.starts, n),
        Expression::ArrayLength => scalar_type(Scalar::U32),
        Expression::RayQueryProceedResult => scalar_type(Scalar::BOOL),
        Expression::RayQueryGetIntersection => special(
            ctx.frames,
            ctx.starts.intersections,
            ctx.starts.vertex_returns,
        ),
        Expression::RayQueryVertexPositions => special(
            ctx.frames,
            ctx.starts.vertex_returns,
            ctx.starts.rows,
        ),
        Expression::SubgroupBallotResult => vector_type(VectorSize::Quad, Scalar::U32),
        Expression::CooperativeLoad {
            columns,
            rows,
            role,
            pointer,
        } => cooperative_load(ctx, here, columns, rows, role, pointer),
        Expression::CooperativeMultiplyAdd { c } => past(ctx, c),
    }
}

// The type of a row, by its frame and the answers so far; an unknown kind is newer.
pub fn type_row(pass: Pass, ctx: &ResolveContext<'_>, row: RowNumber) -> Answer
    ensures { to_result result
        ≡ rules ctx.now (typed pass row) }
{
    match row_at(ctx.frames, ctx.starts, row) {
        Some(e) => resolve(pass, ctx, row, e),
        None => Err(Unresolved::Newer { row }),
    }
}
