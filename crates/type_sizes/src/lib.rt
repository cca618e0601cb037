// The bytes that a type fills, found from the types it names (document 02, requests 5 and 6). A type names only earlier
// ones, so its number falls; what was found is kept in a table, so a part is measured once. Types that are marked go by
// counts; with none marked it is request 5's measure.
#![tactic(auto)]

ghost use Rattle.std.specs.Prelude.{◌≡◌};
ghost use Rattle.frames.specs.Bytes.{put_frame};
ghost use Rattle.rule_sizes.specs.Sizes.{measure_in, type_size_in, measure_frame, size_frame};
ghost use Rattle.rule_sizes.specs.Sizes.{frames_written};
ghost use Rattle.rule_ranges.specs.Ranges.{counts_of, range_of, range_frame};
ghost use Rattle.size_steps.specs.Exact.{Like};
ghost use Rattle.rule_ranges.specs.Ranges.{measure_marked};
ghost use Rattle.rule_ranges.specs.ForProofs.{earlier, KnownMarked, parts_by};

use answers::{MAX_FRAMES, QueryError};
use archive::Starts;
use archive_access::families::{is_type, member_at, type_at};
use frames::{frame_at, put_frame};
use ir::{MemberNumber, TypeNumber};
use rule_ranges::Range;
use rule_sizes::{Alignment, Measure, TypeSize};
use size_needs::{Needs, needs_of};
use size_pending::pending_marks;
use size_steps::SoFar;
use size_steps::leaves::unmeasured;
use size_steps::steps::{array_of, member_more, struct_by};
use size_steps::table::{measure_frame, measure_of, range_frame};

// What a type fills that type n names.
#[cycle(measured_part_parts)]
fn part(
    frames: &[u8],
    s: Starts,
    marks: &[bool],
    counts: &[u32],
    table: &mut [u8],
    n: TypeNumber,
    b: TypeNumber,
) -> Measure
    requires { KnownMarked frames.now s marks.now counts.now table.old }
    ensures { (result ≡ earlier frames.now s marks.now counts.now n b)
        × KnownMarked frames.now s marks.now counts.now table.new }
{
    if b.0 < n.0 {
        measured(frames, s, marks, counts, table, b)
    } else {
        unmeasured(b)
    }
}

// The members of struct n, from member `first` on; afresh, or at the file's offsets.
#[cycle(measured_part_parts)]
fn parts(
    frames: &[u8],
    s: Starts,
    marks: &[bool],
    counts: &[u32],
    table: &mut [u8],
    n: TypeNumber,
    first: MemberNumber,
    count: u16,
    afresh: bool,
) -> SoFar
    requires { KnownMarked frames.now s marks.now counts.now table.old }
    ensures { Like afresh
        (parts_by afresh frames.now s
        (earlier frames.now s marks.now counts.now n) first count) result
        × KnownMarked frames.now s marks.now counts.now table.new }
{
    let mut so_far = SoFar::Laid {
        align: Alignment::Two,
        end: 0,
        placed: true,
    };
    for i in 0..count {
        let m = member_at(frames, s, first, i as u32);
        let t = m.ty;
        let e = part(frames, s, marks, counts, table, n, t);
        so_far = member_more(afresh, so_far, m.offset, e);
    }
    so_far
}

// Measure m of type n, put into the table.
fn kept(table: &mut [u8], n: TypeNumber, m: Measure) -> Measure
    ensures { (result ≡ m) × (table.new ≡ put_frame table.old n.0 (measure_frame m)) }
{
    put_frame(table, n.0 as usize, measure_frame(m));
    m
}

// What type n fills: as the table has it, or found from the types it names.
#[cycle(measured_part_parts)]
fn measured(
    frames: &[u8],
    s: Starts,
    marks: &[bool],
    counts: &[u32],
    table: &mut [u8],
    n: TypeNumber,
) -> Measure
    requires { KnownMarked frames.now s marks.now counts.now table.old }
    ensures { (result ≡ measure_marked frames.now s marks.now counts.now n)
        × KnownMarked frames.now s marks.now counts.now table.new }
{
    let held = frame_at(table, n.0 as usize);
    if held.b0 != 0 {
        return measure_of(held);
    }
    let needs = needs_of(marks, counts, n, type_at(frames, s, n));
    match needs {
        Needs::Nothing(m) => kept(table, n, m),
        Needs::Element {
            base,
            count,
            stride,
        } => {
            let e = part(frames, s, marks, counts, table, n, base);
            kept(table, n, array_of(n, e, count, stride))
        }
        Needs::Members {
            first,
            count,
            span,
            afresh,
        } => {
            let p = parts(frames, s, marks, counts, table, n, first, count, afresh);
            kept(table, n, struct_by(afresh, n, p, count, span))
        }
    }
}

// What type n fills, where the types that are marked go by these counts. Earlier types are measured first, in order: so
// each finds what it names in the table, and the calls go two deep however the types are stacked.
pub fn measure_marked(
    frames: &[u8],
    s: Starts,
    marks: &[bool],
    counts: &[u32],
    n: TypeNumber,
) -> Measure
    ensures { result ≡ measure_marked frames.now s marks.now counts.now n }
{
    let mut table = [0u8; 16384];
    for k in 0..n.0 {
        measured(frames, s, marks, counts, &mut table, TypeNumber(k));
    }
    measured(frames, s, marks, counts, &mut table, n)
}

// Alignment and size of type n, or the lowest faulty type.
pub fn measure(frames: &[u8], s: Starts, n: TypeNumber) -> Measure
    ensures { result ≡ measure_in frames.now s n }
{
    let marks = [false; 0];
    let counts = [0u32; 0];
    measure_marked(frames, s, &marks, &counts, n)
}

// What every type fills, a frame each, at the front of a buffer, whose bytes past them stay; a buffer without room for
// all of them stays as it was, and so does every buffer where there are more than 1,024.
pub fn measure_all(frames: &[u8], s: Starts, out: &mut [u8])
    ensures { out.new ≡ frames_written (size_frame frames.now s) s out.old }
{
    let n = s.members;
    if MAX_FRAMES < n {
        return;
    }
    if out.len() / 16 < n {
        return;
    }
    let marks = [false; 0];
    let counts = [0u32; 0];
    let mut table = [0u8; 16384];
    for k in 0..n {
        let m = measured(frames, s, &marks, &counts, &mut table, TypeNumber(k as u16));
        put_frame(out, k, measure_frame(m));
    }
}

// What type n fills, and number 6 where there is no such type.
#[tactic(auto, unfolding(rule_sizes::specs::Sizes::type_size_in))]
pub fn type_size(frames: &[u8], s: Starts, n: TypeNumber) -> TypeSize
    ensures { result ≡ type_size_in frames.now s n }
{
    if is_type(s, n) {
        Ok(measure(frames, s, n))
    } else {
        Err(QueryError::Index)
    }
}

// The range of what a type fills: by its measures at the least and at the greatest counts.
pub fn range_of(least: Measure, greatest: Measure) -> Range
    ensures { result ≡ range_of least greatest }
{
    match greatest {
        Measure::Faulty { fault, place } => Range::Faulty { fault, place },
        Measure::Fills { align, size } => match least {
            Measure::Faulty { fault, place } => Range::Faulty { fault, place },
            Measure::Fills {
                align: _,
                size: low,
            } => Range::Spans {
                align,
                least: low,
                greatest: size,
            },
        },
    }
}

// The range of type n, where the types that are marked go by counts.
pub fn range_marked(
    frames: &[u8],
    s: Starts,
    marks: &[bool],
    least: &[u32],
    greatest: &[u32],
    n: TypeNumber,
) -> Range
    ensures { result
        ≡ range_of (measure_marked frames.now s marks.now least.now n)
        (measure_marked frames.now s marks.now greatest.now n) }
{
    let low = measure_marked(frames, s, marks, least, n);
    let high = measure_marked(frames, s, marks, greatest, n);
    range_of(low, high)
}

// The range of every type, a frame each, at the front of a buffer; as `measure_all` leaves it.
pub fn range_all(frames: &[u8], s: Starts, least: &[u32], greatest: &[u32], out: &mut [u8])
    ensures { out.new
        ≡ frames_written
        (range_frame frames.now s (counts_of least.now) (counts_of greatest.now)) s
        out.old }
{
    let n = s.members;
    if MAX_FRAMES < n {
        return;
    }
    let room = out.len() / 16;
    if room < n {
        return;
    }
    let marks = pending_marks(frames, s);
    let mut lows = [0u8; 16384];
    let mut highs = [0u8; 16384];
    for k in 0..n {
        let t = TypeNumber(k as u16);
        let small = measured(frames, s, &marks, least, &mut lows, t);
        let large = measured(frames, s, &marks, greatest, &mut highs, t);
        put_frame(out, k, range_frame(range_of(small, large)));
    }
}
