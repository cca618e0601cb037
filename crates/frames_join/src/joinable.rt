// Whether a file may be joined, else number 49: every frame is tested (law_join/specs/Joinable.antt).
ghost use Rattle.std.specs.Prelude.{◌≡◌};
ghost use Rattle.law_join.specs.Joinable.{type_joins, item_joins, row_joins, frame_joins, joinable};

use archive::Starts;
use archive_access::families::find_starts;
use frames::{Frame, frame_at, frame_count};
use ir::{ItemKind, RowKind, TypeKind};

// Of a type its kind is known.
fn type_joins(kind: TypeKind) -> bool
    ensures { result ≡ type_joins kind }
{
    match kind {
        TypeKind::Unknown => false,
        TypeKind::Scalar => true,
        TypeKind::Vector => true,
        TypeKind::Matrix => true,
        TypeKind::CooperativeMatrix => true,
        TypeKind::Atomic => true,
        TypeKind::Pointer => true,
        TypeKind::ValuePointer => true,
        TypeKind::Array => true,
        TypeKind::Struct => true,
        TypeKind::Image => true,
        TypeKind::Sampler => true,
        TypeKind::AccelerationStructure => true,
        TypeKind::RayQuery => true,
        TypeKind::BindingArray => true,
    }
}

// An item is no special type.
fn item_joins(kind: ItemKind) -> bool
    ensures { result ≡ item_joins kind }
{
    match kind {
        ItemKind::Unknown => false,
        ItemKind::Constant => true,
        ItemKind::Override => true,
        ItemKind::GlobalVariable => true,
        ItemKind::FunctionArgument => true,
        ItemKind::LocalVariable => true,
        ItemKind::Function => true,
        ItemKind::RayIntersection => false,
        ItemKind::RayVertexReturn => false,
    }
}

// Of a row its kind is known and not Math, its argument is there, and it needs no special type.
fn row_joins(s: Starts, kind: RowKind, f: Frame) -> bool
    ensures { result ≡ row_joins s kind f }
{
    match kind {
        RowKind::Unknown => false,
        RowKind::Literal => true,
        RowKind::Constant => true,
        RowKind::Override => true,
        RowKind::ZeroValue => true,
        RowKind::Compose => true,
        RowKind::Access => true,
        RowKind::AccessIndex => true,
        RowKind::Splat => true,
        RowKind::Swizzle => true,
        RowKind::FunctionArgument => (f.last() as usize) < s.locals.saturating_sub(s.arguments),
        RowKind::GlobalVariable => true,
        RowKind::LocalVariable => true,
        RowKind::Load => true,
        RowKind::ImageSample => true,
        RowKind::ImageLoad => true,
        RowKind::ImageQuery => true,
        RowKind::Unary => true,
        RowKind::Binary => true,
        RowKind::Select => true,
        RowKind::Derivative => true,
        RowKind::Relational => true,
        RowKind::Math => false,
        RowKind::As => true,
        RowKind::CallResult => true,
        RowKind::AtomicResult => true,
        RowKind::WorkGroupUniformLoadResult => true,
        RowKind::ArrayLength => true,
        RowKind::RayQueryVertexPositions => false,
        RowKind::RayQueryProceedResult => true,
        RowKind::RayQueryGetIntersection => false,
        RowKind::SubgroupBallotResult => true,
        RowKind::SubgroupOperationResult => true,
        RowKind::CooperativeLoad => true,
        RowKind::CooperativeMultiplyAdd => true,
    }
}

// By the family; members and components have no kind.
fn frame_joins(s: Starts, f: Frame) -> bool
    ensures { result ≡ frame_joins s f }
{
    let family = f.b0;
    match family {
        0 => true,
        1 => type_joins(TypeKind::from(f.b1)),
        2 => true,
        3 => item_joins(ItemKind::from(f.b1)),
        4 => row_joins(s, RowKind::from(f.b1), f),
        5 => true,
        _ => true,
    }
}

// Whether every frame of a file passes.
#[tactic(auto, unfolding(scan::specs::Lowest::all_below, law_join::specs::Joinable::joinable))]
pub fn joins(frames: &[u8]) -> bool
    ensures { result ≡ joinable frames.now }
{
    let s = find_starts(frames);
    let n = frame_count(frames);
    let mut ok = true;
    for k in 0..n {
        ok &= frame_joins(s, frame_at(frames, k));
    }
    ok
}
