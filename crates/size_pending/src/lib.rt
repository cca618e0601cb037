// Which types are a pending array or hold one, and the counts of overrides (document 02, request 6). A type names only
// earlier ones, so types are marked in order.
#![tactic(auto)]

ghost use Rattle.std.specs.Prelude.{◌≡◌, ◌&&◌, ltb, get_or};
ghost use Rattle.answers.specs.Limit.{max_frames};
ghost use Rattle.rule_ranges.specs.Pending.{size_holds, member_holds, inner_holds, form_holds, look_holds};
ghost use Rattle.rule_ranges.specs.Pending.{holds_pending};
ghost use Rattle.rule_ranges.specs.Ranges.{counts_of, span_ok, faulty_span};

use archive::Starts;
use archive_access::families::{member_at, type_at};
use ir::{ArraySize, MemberNumber, TypeInner, TypeNumber};

// A table's mark of type n; false past its end.
pub fn is_marked(marks: &[bool], n: TypeNumber) -> bool
    ensures { result ≡ look_holds marks.now n }
{
    marks.get(n.0 as usize).copied().unwrap_or(false)
}

fn size_holds(marks: &[bool], base: TypeNumber, size: ArraySize) -> bool
    ensures { result ≡ size_holds (look_holds marks.now) base size }
{
    match size {
        ArraySize::Constant(_) => is_marked(marks, base),
        ArraySize::Pending(_) => true,
        ArraySize::Dynamic => is_marked(marks, base),
    }
}

// The members of a struct, from member `first` on.
#[tactic(auto, unfolding(rule_ranges::specs::Pending::member_holds))]
fn member_holds(frames: &[u8], s: Starts, marks: &[bool], first: MemberNumber, count: u16) -> bool
    ensures { result ≡ member_holds frames.now s (look_holds marks.now) first count }
{
    let mut any = false;
    for i in 0..count {
        let m = member_at(frames, s, first, i as u32);
        any = any | is_marked(marks, m.ty);
    }
    any
}

fn inner_holds(frames: &[u8], s: Starts, marks: &[bool], t: TypeInner) -> bool
    ensures { result ≡ inner_holds frames.now s (look_holds marks.now) t }
{
    match t {
        TypeInner::Array {
            base,
            size,
            stride: _,
        } => size_holds(marks, base, size),
        TypeInner::Struct {
            first,
            count,
            span: _,
        } => member_holds(frames, s, marks, first, count),
        _ => false,
    }
}

fn form_holds(frames: &[u8], s: Starts, marks: &[bool], form: Option<TypeInner>) -> bool
    ensures { result ≡ form_holds frames.now s (look_holds marks.now) form }
{
    match form {
        Some(t) => inner_holds(frames, s, marks, t),
        None => false,
    }
}

// Marks of the first 1,024 types; an accepted file has no more.
pub fn pending_marks(frames: &[u8], s: Starts) -> [bool; 1024]
    ensures { look_holds result
        ≡ (λ (b : TypeNumber). ltb b.0 max_frames && holds_pending frames.now s b) }
{
    let mut marks = [false; 1024];
    for n in 0..1024u16 {
        let t = type_at(frames, s, TypeNumber(n));
        let one = form_holds(frames, s, &marks, t);
        marks[n as usize] = one;
    }
    marks
}

// The count of override o; 0 past the table's end.
pub fn count_at(counts: &[u32], o: usize) -> u32
    ensures { result ≡ get_or counts.now o 0 }
{
    counts.get(o).copied().unwrap_or(0)
}

fn span_ok(least: &[u32], greatest: &[u32], o: usize) -> bool
    ensures { result
        ≡ span_ok (counts_of least.now) (counts_of greatest.now) (record { 0 = o }) }
{
    let l = count_at(least, o);
    let g = count_at(greatest, o);
    (1 <= l) & (l <= g)
}

// Number 45: the lowest override of the file whose least count is 0 or above its greatest.
#[tactic(auto, unfolding(rule_ranges::specs::Ranges::faulty_span))]
pub fn faulty_span(s: Starts, least: &[u32], greatest: &[u32]) -> Option<usize>
    ensures { result ≡ faulty_span s (counts_of least.now) (counts_of greatest.now) }
{
    let n = s.globals.saturating_sub(s.overrides);
    (0..n).find(|o| !span_ok(least, greatest, *o))
}
