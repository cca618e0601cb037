// What was found of a type as a frame: alignment and size, their range, or a number and its place.
ghost use Rattle.std.specs.Prelude.{◌≡◌};
ghost use Rattle.answers.specs.Numbers.{at};
ghost use Rattle.frames.specs.Out.{refused_frame};
ghost use Rattle.rule_sizes.specs.Sizes.{fault_number, measure_frame};
ghost use Rattle.rule_sizes.specs.Sizes.{measure_number, size_fault_of, measure_of};
ghost use Rattle.rule_ranges.specs.Ranges.{range_said, range_said_frame};
ghost use Rattle.rule_ranges.specs.Ranges.{range_number};

use super::leaves::{alignment_bytes, alignment_of};
use frames::Frame;
use frames_answers::write::{ranged_frame, refused, sized_frame};
use rule_ranges::Range;
use rule_sizes::{Measure, SizeFault};

pub fn fault_number(k: SizeFault) -> u8
    ensures { result ≡ fault_number k }
{
    match k {
        SizeFault::Unmeasured => 42,
        SizeFault::Misplaced => 43,
        SizeFault::Huge => 44,
    }
}

fn fault_of(b: u8) -> SizeFault
    ensures { result ≡ size_fault_of b }
{
    if b == 42 {
        SizeFault::Unmeasured
    } else if b == 43 {
        SizeFault::Misplaced
    } else {
        SizeFault::Huge
    }
}

// The number of a measure: 0 where there is a size.
pub fn measure_number(m: Measure) -> u32
    ensures { result ≡ measure_number m }
{
    match m {
        Measure::Fills { align: _, size: _ } => 0,
        Measure::Faulty { fault, place: _ } => fault_number(fault) as u32,
    }
}

// A measure as it is handed back, and as it is kept.
pub fn measure_frame(m: Measure) -> Frame
    ensures { result ≡ measure_frame m }
{
    match m {
        Measure::Fills { align, size } => sized_frame(alignment_bytes(align), size),
        Measure::Faulty { fault, place } => refused(fault_number(fault), place.0, 0, false),
    }
}

// The number of a range: 0 where there are sizes.
pub fn range_number(g: Range) -> u32
    ensures { result ≡ range_number g }
{
    match g {
        Range::Spans {
            align: _,
            least: _,
            greatest: _,
        } => 0,
        Range::Faulty { fault, place: _ } => fault_number(fault) as u32,
    }
}

// A range as it is handed back.
pub fn range_frame(g: Range) -> Frame
    ensures { result ≡ range_said_frame (range_said g) }
{
    match g {
        Range::Spans {
            align,
            least,
            greatest,
        } => { ranged_frame(alignment_bytes(align), least, greatest) }
        Range::Faulty { fault, place } => refused(fault_number(fault), place.0, 0, false),
    }
}

// Number 45, by its override.
pub fn span_frame(place: u16) -> Frame
    ensures { result ≡ refused_frame (at 45 place) }
{
    refused(45, place, 0, false)
}

// The measure of such a frame.
#[tactic(auto, unfolding(rule_sizes::specs::Sizes::measure_of))]
pub fn measure_of(f: Frame) -> Measure
    ensures { result ≡ measure_of f }
{
    if f.b0 == 12 {
        let align = alignment_of(f.b4);
        let size = f.third();
        Measure::Fills { align, size }
    } else {
        let fault = fault_of(f.b1);
        let place = f.ty();
        Measure::Faulty { fault, place }
    }
}
