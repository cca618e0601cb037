// Where numbers stand in a frame, and a frame with another number in such a place (law_moved/specs/Frames.antt).
#![tactic(auto)]

ghost use Rattle.std.specs.Prelude.{◌≡◌, ◌∷◌};
ghost use Rattle.ir.specs.Numbers.{type_kind_of, item_kind_of, row_kind_of, flag_of};
ghost use Rattle.frames.specs.Bytes.{byte, word};
ghost use Rattle.frames.specs.Fields.{array_size_of};
ghost use Rattle.law_moved.specs.Frames.{two, types, size_numbers, type_numbers, member_numbers, result_numbers};
ghost use Rattle.law_moved.specs.Frames.{item_numbers, query_numbers, relational_numbers, row_numbers};
ghost use Rattle.law_moved.specs.Frames.{component_numbers, numbers_of, with_half, with_word};
ghost use Rattle.frames_numbers.specs.Spots.{spots_of};

use frames::Frame;
use ir::{ImageQuery, ItemKind, RelationalFunction, RowKind, TypeKind};

// What a number counts.
#[derive(Clone, Copy)]
pub enum Counted {
    Types,
    Members,
    Constants,
    Overrides,
    Globals,
    Arguments,
    Locals,
    Functions,
    Rows,
    Components,
    Counts,
}

// Where it stands: in bytes 2 and 3, 4 and 5, 8 to 11, or 12 to 15.
#[derive(Clone, Copy)]
pub enum Spot {
    B2(Counted),
    B4(Counted),
    B8(Counted),
    B12(Counted),
}

// The numbers of a frame.
#[derive(Clone, Copy)]
pub enum Numbers {
    Nothing,
    One(Spot),
    Two(Spot, Spot),
    Three(Spot, Spot, Spot),
}

// An array names its base, and a pending size names an override.
fn array_numbers(f: Frame) -> Numbers
    ensures { spots_of result ≡ two types 2 ∷ size_numbers (array_size_of (byte f 4) (word f 8)) }
{
    let size = f.b4;
    match size {
        0 => Numbers::One(Spot::B2(Counted::Types)),
        1 => Numbers::Two(Spot::B2(Counted::Types), Spot::B8(Counted::Overrides)),
        _ => Numbers::One(Spot::B2(Counted::Types)),
    }
}

fn type_numbers_as(kind: TypeKind, f: Frame) -> Numbers
    ensures { spots_of result ≡ type_numbers kind f }
{
    match kind {
        TypeKind::Unknown => Numbers::Nothing,
        TypeKind::Scalar => Numbers::Nothing,
        TypeKind::Vector => Numbers::Nothing,
        TypeKind::Matrix => Numbers::Nothing,
        TypeKind::CooperativeMatrix => Numbers::Nothing,
        TypeKind::Atomic => Numbers::Nothing,
        TypeKind::Pointer => Numbers::One(Spot::B2(Counted::Types)),
        TypeKind::ValuePointer => Numbers::Nothing,
        TypeKind::Array => array_numbers(f),
        TypeKind::Struct => Numbers::One(Spot::B2(Counted::Members)),
        TypeKind::Image => Numbers::Nothing,
        TypeKind::Sampler => Numbers::Nothing,
        TypeKind::AccelerationStructure => Numbers::Nothing,
        TypeKind::RayQuery => Numbers::Nothing,
        TypeKind::BindingArray => array_numbers(f),
    }
}

// The numbers of a type's frame.
fn type_numbers(f: Frame) -> Numbers
    ensures { spots_of result ≡ type_numbers (type_kind_of (byte f 1)) f }
{
    type_numbers_as(TypeKind::from(f.b1), f)
}

// A member names a type.
fn member_numbers() -> Numbers
    ensures { spots_of result ≡ member_numbers }
{
    Numbers::One(Spot::B2(Counted::Types))
}

// A function names a type where it has a result.
fn result_numbers(res: u8) -> Numbers
    ensures { spots_of result ≡ result_numbers (flag_of res) }
{
    if res == 1 {
        Numbers::One(Spot::B2(Counted::Types))
    } else {
        Numbers::Nothing
    }
}

fn item_numbers_as(kind: ItemKind, f: Frame) -> Numbers
    ensures { spots_of result ≡ item_numbers kind f }
{
    match kind {
        ItemKind::Unknown => Numbers::Nothing,
        ItemKind::Constant => Numbers::One(Spot::B2(Counted::Types)),
        ItemKind::Override => Numbers::One(Spot::B2(Counted::Types)),
        ItemKind::GlobalVariable => Numbers::One(Spot::B2(Counted::Types)),
        ItemKind::FunctionArgument => Numbers::One(Spot::B2(Counted::Types)),
        ItemKind::LocalVariable => Numbers::One(Spot::B2(Counted::Types)),
        ItemKind::Function => result_numbers(f.b4),
        ItemKind::RayIntersection => Numbers::One(Spot::B2(Counted::Types)),
        ItemKind::RayVertexReturn => Numbers::One(Spot::B2(Counted::Types)),
    }
}

// The numbers of an item's frame.
fn item_numbers(f: Frame) -> Numbers
    ensures { spots_of result ≡ item_numbers (item_kind_of (byte f 1)) f }
{
    item_numbers_as(ItemKind::from(f.b1), f)
}

// Only a size reads its image.
fn query_numbers(query: ImageQuery) -> Numbers
    ensures { spots_of result ≡ query_numbers query }
{
    match query {
        ImageQuery::Size => Numbers::One(Spot::B2(Counted::Rows)),
        ImageQuery::NumLevels => Numbers::Nothing,
        ImageQuery::NumLayers => Numbers::Nothing,
        ImageQuery::NumSamples => Numbers::Nothing,
    }
}

// Only IsNan and IsInf read their argument.
fn relational_numbers(fun: RelationalFunction) -> Numbers
    ensures { spots_of result ≡ relational_numbers fun }
{
    match fun {
        RelationalFunction::All => Numbers::Nothing,
        RelationalFunction::Any => Numbers::Nothing,
        RelationalFunction::IsNan => Numbers::One(Spot::B2(Counted::Rows)),
        RelationalFunction::IsInf => Numbers::One(Spot::B2(Counted::Rows)),
    }
}

fn row_numbers_as(kind: RowKind, f: Frame) -> Numbers
    ensures { spots_of result ≡ row_numbers kind f }
{
    match kind {
        RowKind::Unknown => Numbers::Nothing,
        RowKind::Literal => Numbers::Nothing,
        RowKind::Constant => Numbers::One(Spot::B2(Counted::Constants)),
        RowKind::Override => Numbers::One(Spot::B2(Counted::Overrides)),
        RowKind::ZeroValue => Numbers::One(Spot::B2(Counted::Types)),
        RowKind::Compose => Numbers::Three(
            Spot::B2(Counted::Types),
            Spot::B4(Counted::Counts),
            Spot::B12(Counted::Components),
        ),
        RowKind::Access => Numbers::One(Spot::B2(Counted::Rows)),
        RowKind::AccessIndex => Numbers::One(Spot::B2(Counted::Rows)),
        RowKind::Splat => Numbers::One(Spot::B2(Counted::Rows)),
        RowKind::Swizzle => Numbers::One(Spot::B2(Counted::Rows)),
        RowKind::FunctionArgument => Numbers::One(Spot::B12(Counted::Arguments)),
        RowKind::GlobalVariable => Numbers::One(Spot::B2(Counted::Globals)),
        RowKind::LocalVariable => Numbers::One(Spot::B2(Counted::Locals)),
        RowKind::Load => Numbers::One(Spot::B2(Counted::Rows)),
        RowKind::ImageSample => Numbers::One(Spot::B2(Counted::Rows)),
        RowKind::ImageLoad => Numbers::One(Spot::B2(Counted::Rows)),
        RowKind::ImageQuery => query_numbers(ImageQuery::from(f.b6)),
        RowKind::Unary => Numbers::One(Spot::B2(Counted::Rows)),
        RowKind::Binary => Numbers::Two(Spot::B2(Counted::Rows), Spot::B4(Counted::Rows)),
        RowKind::Select => Numbers::One(Spot::B2(Counted::Rows)),
        RowKind::Derivative => Numbers::One(Spot::B2(Counted::Rows)),
        RowKind::Relational => relational_numbers(RelationalFunction::from(f.b6)),
        RowKind::Math => Numbers::Nothing,
        RowKind::As => Numbers::One(Spot::B2(Counted::Rows)),
        RowKind::CallResult => Numbers::One(Spot::B2(Counted::Functions)),
        RowKind::AtomicResult => Numbers::One(Spot::B2(Counted::Types)),
        RowKind::WorkGroupUniformLoadResult => Numbers::One(Spot::B2(Counted::Types)),
        RowKind::ArrayLength => Numbers::Nothing,
        RowKind::RayQueryVertexPositions => Numbers::Nothing,
        RowKind::RayQueryProceedResult => Numbers::Nothing,
        RowKind::RayQueryGetIntersection => Numbers::Nothing,
        RowKind::SubgroupBallotResult => Numbers::Nothing,
        RowKind::SubgroupOperationResult => Numbers::One(Spot::B2(Counted::Types)),
        RowKind::CooperativeLoad => Numbers::One(Spot::B2(Counted::Rows)),
        RowKind::CooperativeMultiplyAdd => Numbers::One(Spot::B2(Counted::Rows)),
    }
}

// The numbers of a row's frame.
pub fn row_numbers(f: Frame) -> Numbers
    ensures { spots_of result ≡ row_numbers (row_kind_of (byte f 1)) f }
{
    row_numbers_as(RowKind::from(f.b1), f)
}

// A component names a row.
fn component_numbers() -> Numbers
    ensures { spots_of result ≡ component_numbers }
{
    Numbers::One(Spot::B2(Counted::Rows))
}

// The numbers of a frame, by its family.
pub fn frame_numbers(f: Frame) -> Numbers
    ensures { spots_of result ≡ numbers_of f }
{
    let family = f.b0;
    match family {
        0 => Numbers::Nothing,
        1 => type_numbers(f),
        2 => member_numbers(),
        3 => item_numbers(f),
        4 => row_numbers(f),
        5 => component_numbers(),
        _ => Numbers::Nothing,
    }
}

// A frame with another number in bytes 2 and 3. A function for each place, since a frame's bytes are fields by name:
// one for all would have an arm for each and be no plainer.
pub fn with_b2(f: Frame, n: u16) -> Frame
    ensures { result ≡ with_half f 2 n }
{
    let [b2, b3] = n.to_le_bytes();
    Frame { b2, b3, ..f }
}

// In bytes 4 and 5.
pub fn with_b4(f: Frame, n: u16) -> Frame
    ensures { result ≡ with_half f 4 n }
{
    let [b4, b5] = n.to_le_bytes();
    Frame { b4, b5, ..f }
}

// In bytes 8 to 11.
pub fn with_b8(f: Frame, n: u32) -> Frame
    ensures { result ≡ with_word f 8 n }
{
    let [b8, b9, b10, b11] = n.to_le_bytes();
    Frame {
        b8,
        b9,
        b10,
        b11,
        ..f
    }
}

// In bytes 12 to 15.
pub fn with_b12(f: Frame, n: u32) -> Frame
    ensures { result ≡ with_word f 12 n }
{
    let [b12, b13, b14, b15] = n.to_le_bytes();
    Frame {
        b12,
        b13,
        b14,
        b15,
        ..f
    }
}
