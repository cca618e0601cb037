// What follows from the shapes of two operands' types, for each group of operators: WGSL's result as a value, or number
// 41.
ghost use Rattle.std.specs.Prelude.{◌≡◌};
ghost use Rattle.rule.specs.Answers.{refused, told};
ghost use Rattle.rule_rows.specs.Answered.{to_result};
ghost use Rattle.rule_rows.specs.Operators.{or_mismatch};
ghost use Rattle.rule_rows.specs.WgslTables.{plain};
ghost use Rattle.rule_rows.specs.Wgsl.{when};
ghost use Rattle.rule_rows.specs.Wgsl.{matrix_times_of, times_matrix_of, matrices_times_of, matrices_sum_of};
ghost use Rattle.rule_rows.specs.Wgsl.{plain_result};
ghost use Rattle.rule_rows.specs.Wgsl.{matrices_result, if_multiply, shapes_result};
ghost use Rattle.row_wgsl.specs.ForProofs.{test_of, size_of, scalar_of};

use super::tests::{is_float, is_integer, is_numeric, like_or_mixed, mixed};
use answers::{Answer, Refusal, Unresolved};
use ir::{BinaryOperator, Scalar, TypeInner, VectorSize};
use row_operands::values::{matrix_type, scalar_type, vector_type};
use rule_rows::Shape;

pub fn mismatch() -> Answer
    ensures { to_result result ≡ told (refused Refusal.Mismatch) }
{
    Err(Unresolved::Refused(Refusal::Mismatch))
}

// A scalar, or a vector of it, where a test holds.
fn plain_when(test: bool, size: Option<VectorSize>, scalar: Scalar) -> Answer
    ensures { to_result result ≡ told (or_mismatch (when test (plain size scalar))) }
{
    if test {
        match size {
            None => scalar_type(scalar),
            Some(n) => vector_type(n, scalar),
        }
    } else {
        mismatch()
    }
}

fn matrix_when(test: bool, columns: VectorSize, rows: VectorSize, scalar: Scalar) -> Answer
    ensures { to_result result ≡ told (or_mismatch (when test (TypeInner.Matrix columns rows scalar))) }
{
    if test {
        matrix_type(columns, rows, scalar)
    } else {
        mismatch()
    }
}

// Whether an operator takes two scalars or vectors.
#[tactic(auto, using(ir::proofs::Equal::scalars_equal, ir::proofs::Equal::sizes_equal))]
fn plain_test(
    op: BinaryOperator,
    n: Option<VectorSize>,
    s: Scalar,
    m: Option<VectorSize>,
    r: Scalar,
) -> bool
    ensures { result ≡ test_of op n s m r }
{
    let kind = s.kind;
    match op {
        BinaryOperator::Add
        | BinaryOperator::Subtract
        | BinaryOperator::Multiply
        | BinaryOperator::Divide
        | BinaryOperator::Modulo => is_numeric(kind) & ((s == r) & like_or_mixed(n, m)),
        BinaryOperator::Equal | BinaryOperator::NotEqual => {
            (is_numeric(kind) | (s == Scalar::BOOL)) & ((s == r) & (n == m))
        }
        BinaryOperator::Less
        | BinaryOperator::LessEqual
        | BinaryOperator::Greater
        | BinaryOperator::GreaterEqual => is_numeric(kind) & ((s == r) & (n == m)),
        BinaryOperator::And | BinaryOperator::InclusiveOr => {
            (is_integer(kind) | (s == Scalar::BOOL)) & ((s == r) & (n == m))
        }
        BinaryOperator::ExclusiveOr => is_integer(kind) & ((s == r) & (n == m)),
        BinaryOperator::LogicalAnd | BinaryOperator::LogicalOr => {
            ((s == Scalar::BOOL) & (r == Scalar::BOOL)) & ((n == None) & (m == None))
        }
        BinaryOperator::ShiftLeft | BinaryOperator::ShiftRight => {
            is_integer(kind) & ((r == Scalar::U32) & (n == m))
        }
    }
}

// The components of the result: arithmetic takes a scalar and a vector too, logical operators take no vectors.
fn plain_size(
    op: BinaryOperator,
    n: Option<VectorSize>,
    m: Option<VectorSize>,
) -> Option<VectorSize>
    ensures { result ≡ size_of op n m }
{
    match op {
        BinaryOperator::Add
        | BinaryOperator::Subtract
        | BinaryOperator::Multiply
        | BinaryOperator::Divide
        | BinaryOperator::Modulo => mixed(n, m),
        BinaryOperator::LogicalAnd | BinaryOperator::LogicalOr => None,
        _ => n,
    }
}

// The scalar of the result: comparisons and logical operators give bools.
fn plain_scalar(op: BinaryOperator, s: Scalar) -> Scalar
    ensures { result ≡ scalar_of op s }
{
    match op {
        BinaryOperator::Equal
        | BinaryOperator::NotEqual
        | BinaryOperator::Less
        | BinaryOperator::LessEqual
        | BinaryOperator::Greater
        | BinaryOperator::GreaterEqual
        | BinaryOperator::LogicalAnd
        | BinaryOperator::LogicalOr => Scalar::BOOL,
        _ => s,
    }
}

// Two scalars or vectors.
fn plain_result(
    op: BinaryOperator,
    n: Option<VectorSize>,
    s: Scalar,
    m: Option<VectorSize>,
    r: Scalar,
) -> Answer
    ensures { to_result result ≡ told (or_mismatch (plain_result op n s m r)) }
{
    plain_when(
        plain_test(op, n, s, m, r),
        plain_size(op, n, m),
        plain_scalar(op, s),
    )
}

// A matrix times a scalar or a vector.
#[tactic(auto, using(ir::proofs::Equal::scalars_equal, ir::proofs::Equal::sizes_equal))]
fn matrix_times(c: VectorSize, r: VectorSize, s: Scalar, n: Option<VectorSize>, t: Scalar) -> Answer
    ensures { to_result result ≡ told (or_mismatch (matrix_times_of c r s n t)) }
{
    let kind = s.kind;
    match n {
        None => matrix_when(is_float(kind) & (s == t), c, r, s),
        Some(size) => plain_when(is_float(kind) & ((s == t) & (size == c)), Some(r), s),
    }
}

// A scalar or a vector times a matrix.
#[tactic(auto, using(ir::proofs::Equal::scalars_equal, ir::proofs::Equal::sizes_equal))]
fn times_matrix(n: Option<VectorSize>, s: Scalar, c: VectorSize, r: VectorSize, t: Scalar) -> Answer
    ensures { to_result result ≡ told (or_mismatch (times_matrix_of n s c r t)) }
{
    let kind = s.kind;
    match n {
        None => matrix_when(is_float(kind) & (s == t), c, r, s),
        Some(size) => plain_when(is_float(kind) & ((s == t) & (size == r)), Some(c), s),
    }
}

#[tactic(auto, using(ir::proofs::Equal::scalars_equal, ir::proofs::Equal::sizes_equal))]
fn matrices_times(
    c: VectorSize,
    r: VectorSize,
    s: Scalar,
    d: VectorSize,
    q: VectorSize,
    t: Scalar,
) -> Answer
    ensures { to_result result ≡ told (or_mismatch (matrices_times_of c r s d q t)) }
{
    let kind = s.kind;
    matrix_when(is_float(kind) & ((s == t) & (c == q)), d, r, s)
}

#[tactic(auto, using(ir::proofs::Equal::scalars_equal, ir::proofs::Equal::sizes_equal))]
fn matrices_sum(
    c: VectorSize,
    r: VectorSize,
    s: Scalar,
    d: VectorSize,
    q: VectorSize,
    t: Scalar,
) -> Answer
    ensures { to_result result ≡ told (or_mismatch (matrices_sum_of c r s d q t)) }
{
    let kind = s.kind;
    matrix_when(is_float(kind) & ((s == t) & ((c == d) & (r == q))), c, r, s)
}

fn matrices_result(
    op: BinaryOperator,
    c: VectorSize,
    r: VectorSize,
    s: Scalar,
    d: VectorSize,
    q: VectorSize,
    t: Scalar,
) -> Answer
    ensures { to_result result ≡ told (or_mismatch (matrices_result op c r s d q t)) }
{
    match op {
        BinaryOperator::Add | BinaryOperator::Subtract => matrices_sum(c, r, s, d, q, t),
        BinaryOperator::Multiply => matrices_times(c, r, s, d, q, t),
        _ => mismatch(),
    }
}

// What Multiply gives of a matrix and a scalar or vector; every other operator is number 41.
fn if_multiply_plain(
    op: BinaryOperator,
    n: Option<VectorSize>,
    s: Scalar,
    c: VectorSize,
    r: VectorSize,
    t: Scalar,
) -> Answer
    ensures { to_result result ≡ told (or_mismatch (if_multiply op (times_matrix_of n s c r t))) }
{
    match op {
        BinaryOperator::Multiply => times_matrix(n, s, c, r, t),
        _ => mismatch(),
    }
}

fn if_multiply_matrix(
    op: BinaryOperator,
    c: VectorSize,
    r: VectorSize,
    s: Scalar,
    n: Option<VectorSize>,
    t: Scalar,
) -> Answer
    ensures { to_result result ≡ told (or_mismatch (if_multiply op (matrix_times_of c r s n t))) }
{
    match op {
        BinaryOperator::Multiply => matrix_times(c, r, s, n, t),
        _ => mismatch(),
    }
}

// The left is a scalar or a vector.
fn plain_left(op: BinaryOperator, n: Option<VectorSize>, s: Scalar, y: Shape) -> Answer
    ensures { to_result result ≡ told (or_mismatch (shapes_result op (Shape.Plain n s) y)) }
{
    match y {
        Shape::Plain { size, scalar } => plain_result(op, n, s, size, scalar),
        Shape::Matrix {
            columns,
            rows,
            scalar,
        } => if_multiply_plain(op, n, s, columns, rows, scalar),
        Shape::Other => mismatch(),
    }
}

// The left is a matrix.
fn matrix_left(op: BinaryOperator, c: VectorSize, r: VectorSize, s: Scalar, y: Shape) -> Answer
    ensures { to_result result ≡ told (or_mismatch (shapes_result op (Shape.Matrix c r s) y)) }
{
    match y {
        Shape::Plain { size, scalar } => if_multiply_matrix(op, c, r, s, size, scalar),
        Shape::Matrix {
            columns,
            rows,
            scalar,
        } => matrices_result(op, c, r, s, columns, rows, scalar),
        Shape::Other => mismatch(),
    }
}

pub fn shapes_result(op: BinaryOperator, x: Shape, y: Shape) -> Answer
    ensures { to_result result ≡ told (or_mismatch (shapes_result op x y)) }
{
    match x {
        Shape::Plain { size, scalar } => plain_left(op, size, scalar, y),
        Shape::Matrix {
            columns,
            rows,
            scalar,
        } => matrix_left(op, columns, rows, scalar, y),
        Shape::Other => mismatch(),
    }
}
