// Where each family of a file begins, and typed access to what the file holds, over its frames and these places.
ghost use Rattle.std.specs.Prelude.{◌≡◌, ℕ, ◌-◌, ◌≤◌, ◌+◌, ltb};
ghost use Rattle.scan.specs.Lowest.{lowest};
ghost use Rattle.frames.specs.Bytes.{frame_count, frame_at};
ghost use Rattle.archive.specs.Order.{rank_at};
ghost use Rattle.archive.specs.Starts.{start, starts_of, row_count};
ghost use Rattle.archive.specs.Names.{is_type, is_row, size_names};
ghost use Rattle.archive.specs.Access.{type_in, row_in, member_in};
ghost use Rattle.archive.specs.ForProofs.{item_in, component_in};

use super::order::rank_of;
use archive::{
    ARGUMENT_RANK, COMPONENT_RANK, CONSTANT_RANK, FUNCTION_RANK, GLOBAL_RANK, INTERSECTION_RANK,
    LOCAL_RANK, MEMBER_RANK, OVERRIDE_RANK, ROW_RANK, Starts, VERTEX_RETURN_RANK,
};
use frames::{Frame, frame_at, frame_count};
use frames_rows::{item_of, row_form};
use ir::{
    ArraySize, ComponentNumber, Expression, Item, ItemNumber, MemberNumber, RowNumber,
    StructMember, TypeInner, TypeNumber,
};

// The lowest frame of this rank or a higher one; every frame before `from` is lower.
#[tactic(auto, unfolding(archive::specs::Starts::start))]
fn skip(frames: &[u8], from: usize, rank: usize) -> usize
    requires { (from ≤ frame_count frames.now)
        × (lowest (λ (k : ℕ). ltb (rank_at frames.now k) rank) from ≡ None) }
    ensures { result ≡ start frames.now rank }
{
    let n = frame_count(frames);
    for k in from..n {
        if rank <= rank_of(frame_at(frames, k)) {
            return k;
        }
    }
    n
}

#[tactic(auto, unfolding(archive::specs::Starts::starts_of))]
pub fn find_starts(frames: &[u8]) -> Starts
    ensures { result ≡ starts_of frames.now }
{
    let members = skip(frames, 0, MEMBER_RANK);
    let constants = skip(frames, members, CONSTANT_RANK);
    let overrides = skip(frames, constants, OVERRIDE_RANK);
    let globals = skip(frames, overrides, GLOBAL_RANK);
    let arguments = skip(frames, globals, ARGUMENT_RANK);
    let locals = skip(frames, arguments, LOCAL_RANK);
    let functions = skip(frames, locals, FUNCTION_RANK);
    let intersections = skip(frames, functions, INTERSECTION_RANK);
    let vertex_returns = skip(frames, intersections, VERTEX_RETURN_RANK);
    let rows = skip(frames, vertex_returns, ROW_RANK);
    let components = skip(frames, rows, COMPONENT_RANK);
    let end = frame_count(frames);
    Starts {
        members,
        constants,
        overrides,
        globals,
        arguments,
        locals,
        functions,
        intersections,
        vertex_returns,
        rows,
        components,
        end,
    }
}

// Whether there is a type of this number.
pub fn is_type(s: Starts, n: TypeNumber) -> bool
    ensures { result ≡ is_type s n }
{
    (n.0 as usize) < s.members
}

// How many rows a file has.
pub fn row_count(s: Starts) -> usize
    ensures { result ≡ row_count s }
{
    s.components.saturating_sub(s.rows)
}

// Whether there is a row of this number.
pub fn is_row(s: Starts, n: RowNumber) -> bool
    ensures { result ≡ is_row s n }
{
    (n.0 as usize) < row_count(s)
}

// An item of the frames from `first` up to `last`.
pub fn is_item(first: usize, last: usize, n: ItemNumber) -> bool
    ensures { result ≡ ltb n.0 (last - first) }
{
    (n.0 as usize) < last.saturating_sub(first)
}

// Whether a pending size names an override; other sizes name nothing.
pub fn size_names(s: Starts, size: ArraySize) -> bool
    ensures { result ≡ size_names s size }
{
    match size {
        ArraySize::Constant(_) => true,
        ArraySize::Pending(o) => is_item(s.overrides, s.globals, o),
        ArraySize::Dynamic => true,
    }
}

// Type n; where there is none, a type of unknown kind.
#[tactic(auto, unfolding(archive::specs::Access::type_in))]
pub fn type_at(frames: &[u8], s: Starts, n: TypeNumber) -> Option<TypeInner>
    ensures { result ≡ type_in frames.now s n }
{
    if is_type(s, n) {
        let f = frame_at(frames, n.0 as usize);
        f.type_form()
    } else {
        None
    }
}

// Frame i of those from `first` on; zeros where there is none.
#[tactic(auto, unfolding(frames::specs::Bytes::frame_at))]
pub fn frame_after(frames: &[u8], first: usize, i: usize) -> Frame
    ensures { result ≡ frame_at frames.now (first + i) }
{
    frame_at(frames, first.saturating_add(i))
}

// Member i of the struct whose members begin at member `first`.
pub fn member_at(frames: &[u8], s: Starts, first: MemberNumber, i: u32) -> StructMember
    ensures { result ≡ member_in frames.now s first i }
{
    let f = frame_after(frames, s.members, (first.0 as usize) + (i as usize));
    f.member()
}

// Item n of those whose frames begin at `first`.
pub fn item_at(frames: &[u8], first: usize, n: ItemNumber) -> Item
    ensures { result ≡ item_in frames.now first n }
{
    item_of(frame_after(frames, first, n.0 as usize))
}

// Row n; where there is none, a row of unknown kind.
#[tactic(auto, unfolding(archive::specs::Access::row_in))]
pub fn row_at(frames: &[u8], s: Starts, n: RowNumber) -> Option<Expression>
    ensures { result ≡ row_in frames.now s n }
{
    if is_row(s, n) {
        row_form(frame_after(frames, s.rows, n.0 as usize))
    } else {
        None
    }
}

// Component i of those from component `first` on: the row that it names.
pub fn component_at(frames: &[u8], s: Starts, first: ComponentNumber, i: u32) -> RowNumber
    ensures { result ≡ component_in frames.now s first i }
{
    let f = frame_after(frames, s.components, (first.0 as usize) + (i as usize));
    f.component()
}
