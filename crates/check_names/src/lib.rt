// Number 6: what a type, an item and a row name.
#![tactic(auto)]

ghost use Rattle.std.specs.Prelude.{◌≡◌, ◌&&◌, ◌+◌, ◌-◌, leb, ltb};
ghost use Rattle.frames.specs.Bytes.{half};
ghost use Rattle.frames.specs.Forms.{row_as, row_of};
ghost use Rattle.archive.specs.Starts.{member_count, component_count};
ghost use Rattle.archive.specs.Names.{is_type, size_names, type_names, type_form_names, result_names, item_names};
ghost use Rattle.archive.specs.Names.{is_earlier};
ghost use Rattle.archive.specs.Names.{query_names, relational_names, row_form_names};

use archive::Starts;
use archive_access::families::{is_item, is_type, size_names};
use frames::Frame;
use ir::{
    ArraySize, ComponentNumber, ImageQuery, Item, ItemNumber, MemberNumber, RelationalFunction,
    RowKind, RowNumber, TypeInner, TypeNumber,
};

// Row m is earlier than row n.
pub fn is_earlier(n: RowNumber, m: RowNumber) -> bool
    ensures { result ≡ is_earlier n m }
{
    m.0 < n.0
}

// A struct's members are within their family.
fn struct_names(s: Starts, first: MemberNumber, count: u16) -> bool
    ensures { result ≡ leb (first.0 + count) (member_count s) }
{
    (first.0 as usize) + (count as usize) <= s.constants.saturating_sub(s.members)
}

fn base_names(s: Starts, n: TypeNumber, base: TypeNumber, size: ArraySize) -> bool
    ensures { result ≡ (ltb base.0 n.0 && size_names s size) }
{
    (base.0 < n.0) & size_names(s, size)
}

fn type_names(s: Starts, n: TypeNumber, t: TypeInner) -> bool
    ensures { result ≡ type_names s n t }
{
    match t {
        TypeInner::Pointer { base, space: _ } => base.0 < n.0,
        TypeInner::Array {
            base,
            size,
            stride: _,
        } => base_names(s, n, base, size),
        TypeInner::Struct {
            first,
            count,
            span: _,
        } => struct_names(s, first, count),
        TypeInner::BindingArray { base, size } => base_names(s, n, base, size),
        _ => true,
    }
}

pub fn type_form_names(s: Starts, n: TypeNumber, form: Option<TypeInner>) -> bool
    ensures { result ≡ type_form_names s n form }
{
    match form {
        Some(t) => type_names(s, n, t),
        None => true,
    }
}

fn result_names(s: Starts, res: Option<TypeNumber>) -> bool
    ensures { result ≡ result_names s res }
{
    match res {
        None => true,
        Some(t) => is_type(s, t),
    }
}

pub fn item_names(s: Starts, item: Item) -> bool
    ensures { result ≡ item_names s item }
{
    match item {
        Item::Unknown => true,
        Item::Constant { ty } => is_type(s, ty),
        Item::Override { ty } => is_type(s, ty),
        Item::GlobalVariable { ty, space: _ } => is_type(s, ty),
        Item::FunctionArgument { ty } => is_type(s, ty),
        Item::LocalVariable { ty } => is_type(s, ty),
        Item::Function { result } => result_names(s, result),
        Item::RayIntersection { ty } => is_type(s, ty),
        Item::RayVertexReturn { ty } => is_type(s, ty),
    }
}

fn query_names(n: RowNumber, image: RowNumber, query: ImageQuery) -> bool
    ensures { result ≡ query_names n image query }
{
    match query {
        ImageQuery::Size => is_earlier(n, image),
        ImageQuery::NumLevels | ImageQuery::NumLayers | ImageQuery::NumSamples => true,
    }
}

fn relational_names(n: RowNumber, fun: RelationalFunction, argument: RowNumber) -> bool
    ensures { result ≡ relational_names n fun argument }
{
    match fun {
        RelationalFunction::All | RelationalFunction::Any => true,
        RelationalFunction::IsNan | RelationalFunction::IsInf => is_earlier(n, argument),
    }
}

// A compose's type is one of the file, and its components are within their family.
fn compose_names(s: Starts, ty: TypeNumber, count: u16, first: ComponentNumber) -> bool
    ensures { result ≡ (is_type s ty && leb (first.0 + count) (component_count s)) }
{
    is_type(s, ty) & ((first.0 as usize) + (count as usize) <= s.end.saturating_sub(s.components))
}

// Bytes 2 and 3 name an earlier row.
fn names_earlier(n: RowNumber, f: Frame) -> bool
    ensures { result ≡ is_earlier n (record { 0 = half f 2 }) }
{
    let m = f.operand();
    is_earlier(n, m)
}

// Bytes 2 and 3 name a type.
fn names_type(s: Starts, f: Frame) -> bool
    ensures { result ≡ is_type s (record { 0 = half f 2 }) }
{
    let t = f.ty();
    is_type(s, t)
}

// Bytes 2 and 3 name an item of the frames from `first` up to `last`.
fn names_item(first: usize, last: usize, f: Frame) -> bool
    ensures { result ≡ ltb (half f 2) (last - first) }
{
    let i = f.named();
    is_item(first, last, ItemNumber(i as u32))
}

// What a row of a kind names, in its frame.
fn kind_names(s: Starts, n: RowNumber, kind: RowKind, f: Frame) -> bool
    ensures { result ≡ row_form_names s n (row_as kind f) }
{
    match kind {
        RowKind::Constant => names_item(s.constants, s.overrides, f),
        RowKind::Override => names_item(s.overrides, s.globals, f),
        RowKind::GlobalVariable => names_item(s.globals, s.arguments, f),
        RowKind::LocalVariable => names_item(s.locals, s.functions, f),
        RowKind::CallResult => names_item(s.functions, s.intersections, f),
        RowKind::Compose => compose_names(s, f.ty(), f.count(), f.first_component()),
        RowKind::ImageQuery => query_names(n, f.operand(), ImageQuery::from(f.b6)),
        RowKind::Relational => relational_names(n, RelationalFunction::from(f.b6), f.operand()),
        RowKind::Binary => names_earlier(n, f) & is_earlier(n, f.right()),
        RowKind::ZeroValue
        | RowKind::AtomicResult
        | RowKind::WorkGroupUniformLoadResult
        | RowKind::SubgroupOperationResult => names_type(s, f),
        RowKind::Unknown
        | RowKind::Literal
        | RowKind::FunctionArgument
        | RowKind::Math
        | RowKind::ArrayLength
        | RowKind::RayQueryVertexPositions
        | RowKind::RayQueryProceedResult
        | RowKind::RayQueryGetIntersection
        | RowKind::SubgroupBallotResult => true,
        _ => names_earlier(n, f),
    }
}

// What a row names, by its kind.
#[tactic(auto, unfolding(frames::specs::Forms::row_of))]
pub fn row_names(s: Starts, n: RowNumber, f: Frame) -> bool
    ensures { result ≡ row_form_names s n (row_of f) }
{
    kind_names(s, n, RowKind::from(f.b1), f)
}
