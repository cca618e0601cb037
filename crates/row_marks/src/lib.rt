// The rows that a row reads, by document 01's first rules, and the marks of the rows that its reading follows (document
// 02, request 12).
#![tactic(auto)]

ghost use Rattle.std.specs.Prelude.{◌≡◌, Bool, true, length, set};
ghost use Rattle.archive.specs.Access.{row_in};
ghost use Rattle.law_cut.specs.Marks.{set_each, marks_by};
ghost use Rattle.row_marks.specs.Reads.{
  of_binary,
  of_query,
  of_relational,
  of_expression,
  of_row,
  after,
  read_in,
  list_of,
  reads_in,
};

use answers::Answer;
use archive::Starts;
use archive_access::families::row_at;
use ir::{BinaryOperator, Expression, ImageQuery, RelationalFunction, RowNumber};
use row_operands::ResolveContext;
use row_operands::past::past;

// What a row reads: no row, one, or left and then right.
#[derive(Clone, Copy)]
pub enum Operands {
    Nothing,
    One(RowNumber),
    Two(RowNumber, RowNumber),
}

// Multiply alone reads both.
fn binary_operands(op: BinaryOperator, left: RowNumber, right: RowNumber) -> Operands
    ensures { result ≡ of_binary op left right }
{
    match op {
        BinaryOperator::Multiply => Operands::Two(left, right),
        BinaryOperator::Add
        | BinaryOperator::Subtract
        | BinaryOperator::Divide
        | BinaryOperator::Modulo
        | BinaryOperator::Equal
        | BinaryOperator::NotEqual
        | BinaryOperator::Less
        | BinaryOperator::LessEqual
        | BinaryOperator::Greater
        | BinaryOperator::GreaterEqual
        | BinaryOperator::And
        | BinaryOperator::ExclusiveOr
        | BinaryOperator::InclusiveOr
        | BinaryOperator::LogicalAnd
        | BinaryOperator::LogicalOr
        | BinaryOperator::ShiftLeft
        | BinaryOperator::ShiftRight => Operands::One(left),
    }
}

// Only a size reads its image.
fn query_operands(query: ImageQuery, image: RowNumber) -> Operands
    ensures { result ≡ of_query query image }
{
    match query {
        ImageQuery::Size => Operands::One(image),
        ImageQuery::NumLevels | ImageQuery::NumLayers | ImageQuery::NumSamples => Operands::Nothing,
    }
}

// Only IsNan and IsInf read their argument.
fn relational_operands(fun: RelationalFunction, argument: RowNumber) -> Operands
    ensures { result ≡ of_relational fun argument }
{
    match fun {
        RelationalFunction::All | RelationalFunction::Any => Operands::Nothing,
        RelationalFunction::IsNan | RelationalFunction::IsInf => Operands::One(argument),
    }
}

// The operands that a row's rule reads, in order.
fn expression_operands(e: Expression) -> Operands
    ensures { result ≡ of_expression e }
{
    match e {
        Expression::Access { base } => Operands::One(base),
        Expression::AccessIndex { base, index: _ } => Operands::One(base),
        Expression::Splat { size: _, value } => Operands::One(value),
        Expression::Swizzle { size: _, vector } => Operands::One(vector),
        Expression::Load { pointer } => Operands::One(pointer),
        Expression::ImageSample { image, gather: _ } => Operands::One(image),
        Expression::ImageLoad { image } => Operands::One(image),
        Expression::ImageQuery { image, query } => query_operands(query, image),
        Expression::Unary { expr } => Operands::One(expr),
        Expression::Binary { op, left, right } => binary_operands(op, left, right),
        Expression::Select { accept } => Operands::One(accept),
        Expression::Derivative { expr } => Operands::One(expr),
        Expression::Relational { fun, argument } => relational_operands(fun, argument),
        Expression::As {
            expr,
            kind: _,
            convert: _,
        } => Operands::One(expr),
        Expression::CooperativeLoad {
            columns: _,
            rows: _,
            role: _,
            pointer,
        } => Operands::One(pointer),
        Expression::CooperativeMultiplyAdd { c } => Operands::One(c),
        Expression::Literal(_) => Operands::Nothing,
        Expression::Constant(_) => Operands::Nothing,
        Expression::Override(_) => Operands::Nothing,
        Expression::ZeroValue(_) => Operands::Nothing,
        Expression::Compose {
            ty: _,
            count: _,
            first: _,
        } => Operands::Nothing,
        Expression::FunctionArgument(_) => Operands::Nothing,
        Expression::GlobalVariable(_) => Operands::Nothing,
        Expression::LocalVariable(_) => Operands::Nothing,
        Expression::Math => Operands::Nothing,
        Expression::CallResult(_) => Operands::Nothing,
        Expression::AtomicResult { ty: _ } => Operands::Nothing,
        Expression::WorkGroupUniformLoadResult { ty: _ } => Operands::Nothing,
        Expression::ArrayLength => Operands::Nothing,
        Expression::RayQueryVertexPositions => Operands::Nothing,
        Expression::RayQueryProceedResult => Operands::Nothing,
        Expression::RayQueryGetIntersection => Operands::Nothing,
        Expression::SubgroupBallotResult => Operands::Nothing,
        Expression::SubgroupOperationResult { ty: _ } => Operands::Nothing,
    }
}

// Of left and right both where left has a type, else left alone.
fn after_left(a: Answer, left: RowNumber, right: RowNumber) -> Operands
    ensures { result ≡ after a left right }
{
    match a {
        Ok(_) => Operands::Two(left, right),
        Err(_) => Operands::One(left),
    }
}

// The operands of a row; a row of unknown kind has none.
fn row_operands(frames: &[u8], s: Starts, row: RowNumber) -> Operands
    ensures { result ≡ of_row (row_in frames.now s row) }
{
    match row_at(frames, s, row) {
        Some(e) => expression_operands(e),
        None => Operands::Nothing,
    }
}

// Of a row's operands those that are read: in order, up to the first without a type.
fn read(ctx: &ResolveContext<'_>, o: Operands) -> Operands
    ensures { result ≡ read_in ctx.now.answers.now ctx.now.places.now o }
{
    match o {
        Operands::Nothing => Operands::Nothing,
        Operands::One(n) => Operands::One(n),
        Operands::Two(left, right) => after_left(past(ctx, left), left, right),
    }
}

// A mark set; none where the table has no such row.
fn set_mark(marks: [bool; 1024], row: RowNumber) -> [bool; 1024]
    ensures { result ≡ set marks row.0 true }
{
    let i = row.0 as usize;
    let mut m = marks;
    if i < 1024 {
        m[i] = true;
    }
    m
}

// A mark set at each row that is read.
fn set_marks(marks: [bool; 1024], o: Operands) -> [bool; 1024]
    ensures { result ≡ set_each marks (list_of o) }
{
    match o {
        Operands::Nothing => marks,
        Operands::One(n) => set_mark(marks, n),
        Operands::Two(left, right) => set_mark(set_mark(marks, left), right),
    }
}

// The marks of the rows that the reading of a row follows, over the answers of a file: from the last row down, a marked
// row marks what it reads.
pub fn follow_marks(ctx: &ResolveContext<'_>, row: RowNumber) -> [bool; 1024]
    ensures { result
        ≡ marks_by (reads_in ctx.now.frames.now ctx.now.starts ctx.now.answers.now ctx.now.places.now) row.0 }
{
    let mut marks = set_mark([false; 1024], row);
    for i in (0..1024).rev() {
        if marks[i] {
            let o = row_operands(ctx.frames, ctx.starts, RowNumber(i as u16));
            marks = set_marks(marks, read(ctx, o));
        }
    }
    marks
}
