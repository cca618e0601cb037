// Results of calls, special types and CooperativeLoad.
ghost use Rattle.std.specs.Prelude.{◌≡◌};
ghost use Rattle.archive.specs.ForProofs.{item_in};
ghost use Rattle.rule.specs.Answers.{told};
ghost use Rattle.rule.specs.Things.{item_result, maybe_item};
ghost use Rattle.rule_rows.specs.Results.{result_of, special, cooperative_of, value_scalar, base_scalar};
ghost use Rattle.rule_rows.specs.Answered.{to_result};

use super::variables::item_type;
use answers::{Answer, Refusal, Unresolved};
use archive::Starts;
use archive_access::families::{is_item, item_at};
use ir::{
    CooperativeRole, CooperativeSize, Item, ItemNumber, RowNumber, Scalar, TypeNumber,
    TypeResolution,
};
use row_operands::values::{cooperative_type, invalid_pointer, numbered};

// A function's result.
fn item_result(item: Item) -> Option<TypeNumber>
    ensures { result ≡ item_result item }
{
    match item {
        Item::Unknown => None,
        Item::Constant { ty: _ } => None,
        Item::Override { ty: _ } => None,
        Item::GlobalVariable { ty: _, space: _ } => None,
        Item::FunctionArgument { ty: _ } => None,
        Item::LocalVariable { ty: _ } => None,
        Item::Function { result } => result,
        Item::RayIntersection { ty: _ } => None,
        Item::RayVertexReturn { ty: _ } => None,
    }
}

fn result_of(res: Option<TypeNumber>) -> Answer
    ensures { to_result result ≡ told (result_of res) }
{
    match res {
        Some(ty) => numbered(ty),
        None => Err(Unresolved::Refused(Refusal::FunctionReturnsVoid)),
    }
}

pub fn call_result(frames: &[u8], s: Starts, n: ItemNumber) -> Answer
    ensures { to_result result ≡ told (result_of (item_result (item_in frames.now s.functions n))) }
{
    result_of(item_result(item_at(frames, s.functions, n)))
}

// A special type: the first of the items from `first` up to `last`.
pub fn special(frames: &[u8], first: usize, last: usize) -> Answer
    ensures { to_result result ≡ told (special (maybe_item frames.now first last (record { 0 = 0 }))) }
{
    if is_item(first, last, ItemNumber(0)) {
        numbered(item_type(item_at(frames, first, ItemNumber(0))))
    } else {
        Err(Unresolved::Refused(Refusal::MissingSpecialType))
    }
}

// Of the scalar pointed at.
pub fn cooperative_of(
    columns: CooperativeSize,
    rows: CooperativeSize,
    role: CooperativeRole,
    pointer: RowNumber,
    scalar: Option<Scalar>,
) -> Answer
    ensures { to_result result ≡ told (cooperative_of columns rows role pointer scalar) }
{
    match scalar {
        Some(scalar) => cooperative_type(columns, rows, scalar, role),
        None => invalid_pointer(pointer),
    }
}

// The scalar of what a value pointer points at.
pub fn base_scalar(base: Option<TypeResolution>) -> Option<Scalar>
    ensures { result ≡ base_scalar base }
{
    match base {
        Some(ty) => value_scalar(ty),
        None => None,
    }
}

fn value_scalar(ty: TypeResolution) -> Option<Scalar>
    ensures { result ≡ value_scalar ty }
{
    match ty {
        TypeResolution::Handle(_) => None,
        TypeResolution::Value(t) => t.scalar(),
    }
}
