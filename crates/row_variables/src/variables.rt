// Literals, constants, arguments, variables and Load.
ghost use Rattle.std.specs.Prelude.{◌≡◌};
ghost use Rattle.archive.specs.ForProofs.{item_in};
ghost use Rattle.rule.specs.Answers.{number, value, given, told};
ghost use Rattle.rule.specs.Things.{item_type, item_space, maybe_item};
ghost use Rattle.rule_rows.specs.Variables.{literal_scalar, argument, variable, load_through, load_into};
ghost use Rattle.rule_rows.specs.Answered.{to_result};

use answers::{Answer, Refusal, Unresolved};
use archive::Starts;
use archive_access::families::{is_item, item_at};
use ir::{AddressSpace, Item, ItemNumber, Literal, RowNumber, Scalar, TypeInner, TypeNumber};
use row_operands::values::{invalid_pointer, numbered, pointer_type, scalar_type};

// The source's Literal::scalar (proc/mod.rs).
pub fn literal_scalar(l: Literal) -> Scalar
    ensures { result ≡ literal_scalar l }
{
    match l {
        Literal::F64 => Scalar::F64,
        Literal::F32 => Scalar::F32,
        Literal::F16 => Scalar::F16,
        Literal::U16 => Scalar::U16,
        Literal::I16 => Scalar::I16,
        Literal::U32 => Scalar::U32,
        Literal::I32 => Scalar::I32,
        Literal::U64 => Scalar::U64,
        Literal::I64 => Scalar::I64,
        Literal::Bool => Scalar::BOOL,
        Literal::AbstractInt => Scalar::ABSTRACT_INT,
        Literal::AbstractFloat => Scalar::ABSTRACT_FLOAT,
    }
}

pub fn literal(l: Literal) -> Answer
    ensures { to_result result ≡ told (given (value (TypeInner.Scalar (literal_scalar l)))) }
{
    scalar_type(literal_scalar(l))
}

// An item's type.
pub fn item_type(item: Item) -> TypeNumber
    ensures { result ≡ item_type item }
{
    match item {
        Item::Unknown => TypeNumber(0),
        Item::Constant { ty } => ty,
        Item::Override { ty } => ty,
        Item::GlobalVariable { ty, space: _ } => ty,
        Item::FunctionArgument { ty } => ty,
        Item::LocalVariable { ty } => ty,
        Item::Function { result: _ } => TypeNumber(0),
        Item::RayIntersection { ty } => ty,
        Item::RayVertexReturn { ty } => ty,
    }
}

// A global's address space.
fn item_space(item: Item) -> AddressSpace
    ensures { result ≡ item_space item }
{
    match item {
        Item::Unknown => AddressSpace::Function,
        Item::Constant { ty: _ } => AddressSpace::Function,
        Item::Override { ty: _ } => AddressSpace::Function,
        Item::GlobalVariable { ty: _, space } => space,
        Item::FunctionArgument { ty: _ } => AddressSpace::Function,
        Item::LocalVariable { ty: _ } => AddressSpace::Function,
        Item::Function { result: _ } => AddressSpace::Function,
        Item::RayIntersection { ty: _ } => AddressSpace::Function,
        Item::RayVertexReturn { ty: _ } => AddressSpace::Function,
    }
}

// The type that a constant or an override is declared with.
pub fn declared(frames: &[u8], first: usize, n: ItemNumber) -> Answer
    ensures { to_result result ≡ told (given (number (item_type (item_in frames.now first n)))) }
{
    numbered(item_type(item_at(frames, first, n)))
}

pub fn function_argument(frames: &[u8], s: Starts, index: u32) -> Answer
    ensures { to_result result
        ≡ told (argument index (maybe_item frames.now s.arguments s.locals (record { 0 = index }))) }
{
    if is_item(s.arguments, s.locals, ItemNumber(index)) {
        numbered(item_type(item_at(frames, s.arguments, ItemNumber(index))))
    } else {
        Err(Unresolved::Refused(Refusal::FunctionArgumentNotFound(index)))
    }
}

// A variable of the space Handle has its type itself, every other the pointer to it.
fn variable(ty: TypeNumber, space: AddressSpace) -> Answer
    ensures { to_result result ≡ told (variable ty space) }
{
    match space {
        AddressSpace::Handle => numbered(ty),
        AddressSpace::Function => pointer_type(ty, space),
        AddressSpace::Private => pointer_type(ty, space),
        AddressSpace::WorkGroup => pointer_type(ty, space),
        AddressSpace::Uniform => pointer_type(ty, space),
        AddressSpace::Storage { access: _ } => pointer_type(ty, space),
        AddressSpace::Immediate => pointer_type(ty, space),
        AddressSpace::TaskPayload => pointer_type(ty, space),
        AddressSpace::RayPayload => pointer_type(ty, space),
        AddressSpace::IncomingRayPayload => pointer_type(ty, space),
    }
}

pub fn global_variable(frames: &[u8], s: Starts, n: ItemNumber) -> Answer
    ensures { to_result result
        ≡ told (variable (item_type (item_in frames.now s.globals n))
        (item_space (item_in frames.now s.globals n))) }
{
    let item = item_at(frames, s.globals, n);
    variable(item_type(item), item_space(item))
}

pub fn local_variable(frames: &[u8], s: Starts, n: ItemNumber) -> Answer
    ensures { to_result result
        ≡ told (given (value
        (TypeInner.Pointer (item_type (item_in frames.now s.locals n)) AddressSpace.Function))) }
{
    let base = item_type(item_at(frames, s.locals, n));
    pointer_type(base, AddressSpace::Function)
}

// Through a Pointer: of an Atomic its scalar.
pub fn load_through(base: TypeNumber, t: TypeInner) -> Answer
    ensures { to_result result ≡ told (load_through base t) }
{
    match t {
        TypeInner::Atomic(scalar) => scalar_type(scalar),
        _ => numbered(base),
    }
}

// Through a value pointer.
pub fn load_into(pointer: RowNumber, t: TypeInner) -> Answer
    ensures { to_result result ≡ told (load_into pointer t) }
{
    match t.pointer_base_type() {
        Some(ty) => Ok(ty),
        None => invalid_pointer(pointer),
    }
}
