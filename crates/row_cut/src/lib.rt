// A row's frame as it stands in the file cut to its marked rows (document 02, request 12; law_cut/specs/Cut.antt).
#![tactic(auto)]

ghost use Rattle.std.specs.Prelude.{◌≡◌, cond, ◌≤◌, length};
ghost use Rattle.law_moved.specs.Frames.{move_of, moved_at, moved_row};
ghost use Rattle.law_cut.specs.Cut.{rank, cut_row, cut_moves};
ghost use Rattle.frames_numbers.specs.Spots.{counted_of, spot_of};

use frames::Frame;
use frames_numbers::{Counted, Numbers, Spot, row_numbers, with_b2, with_b4, with_b8, with_b12};

// How many of the first k rows are marked: row k's number in the cut.
fn rank(marks: &[bool], k: u32) -> u32
    requires { k ≤ length marks.now }
    ensures { result ≡ rank marks.now k }
{
    let mut n = 0;
    for marked in &marks[..k as usize] {
        n += u32::from(*marked);
    }
    n
}

// What becomes of a row's number: 0 for a row without a mark.
fn row_number(marks: &[bool], k: u32) -> u32
    ensures { result ≡ cut_row marks.now k }
{
    if (k as usize) < marks.len() {
        if marks[k as usize] { rank(marks, k) } else { 0 }
    } else {
        0
    }
}

// What becomes of a number: never a higher one.
fn cut_number(marks: &[bool], counted: Counted, n: u32) -> u32
    ensures moved { result ≡ move_of (cut_moves marks.now) (counted_of counted) n }
    ensures lower { result ≤ n }
{
    match counted {
        Counted::Types
        | Counted::Members
        | Counted::Constants
        | Counted::Overrides
        | Counted::Globals
        | Counted::Arguments
        | Counted::Locals
        | Counted::Functions => n,
        Counted::Rows => row_number(marks, n),
        Counted::Components | Counted::Counts => 0,
    }
}

// A frame with one of its numbers moved.
fn cut_spot(marks: &[bool], spot: Spot, f: Frame) -> Frame
    ensures { result ≡ moved_at (cut_moves marks.now) (spot_of spot) f }
{
    match spot {
        Spot::B2(counted) => with_b2(f, cut_number(marks, counted, u32::from(f.named())) as u16),
        Spot::B4(counted) => with_b4(f, cut_number(marks, counted, u32::from(f.count())) as u16),
        Spot::B8(counted) => with_b8(f, cut_number(marks, counted, f.third())),
        Spot::B12(counted) => with_b12(f, cut_number(marks, counted, f.last())),
    }
}

// A row's frame with all its numbers moved.
pub fn cut_row(marks: &[bool], f: Frame) -> Frame
    ensures { result ≡ moved_row (cut_moves marks.now) f }
{
    match row_numbers(f) {
        Numbers::Nothing => f,
        Numbers::One(a) => cut_spot(marks, a, f),
        Numbers::Two(a, b) => cut_spot(marks, b, cut_spot(marks, a, f)),
        Numbers::Three(a, b, c) => cut_spot(marks, c, cut_spot(marks, b, cut_spot(marks, a, f))),
    }
}
