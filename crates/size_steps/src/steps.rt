// One array, and one struct member by member, by what their parts fill.
ghost use Rattle.std.specs.Prelude.{◌≡◌, ◌+◌, ◌*◌, ◌≤◌};
ghost use Rattle.rule_sizes.specs.Wgsl.{is_multiple, greater};
ghost use Rattle.rule_sizes.specs.Sizes.{array_of};
ghost use Rattle.size_steps.specs.SoFar.{lower_fault, offset_for, up_to, member_more, span_end, fresh_end, struct_by};

use super::SoFar;
use super::leaves::{alignment_bytes, round_up};
use ir::TypeNumber;
use rule_sizes::{Alignment, Measure, SizeFault};

fn is_multiple(a: Alignment, n: u64) -> bool
    ensures { result ≡ is_multiple a n }
{
    match a {
        Alignment::Two => n % 2 == 0,
        Alignment::Four => n % 4 == 0,
        Alignment::Eight => n % 8 == 0,
        Alignment::Sixteen => n % 16 == 0,
    }
}

fn greater(a: Alignment, b: Alignment) -> Alignment
    ensures { result ≡ greater a b }
{
    if alignment_bytes(a) < alignment_bytes(b) {
        b
    } else {
        a
    }
}

// Exact: two numbers of 32 bits.
fn product(count: u32, stride: u32) -> u64
    ensures { result ≡ count * stride }
{
    (count as u64) * (stride as u64)
}

// The end of a member.
fn total(offset: u64, size: u32) -> u64
    requires { offset ≤ 4294967310 }
    ensures { result ≡ offset + size }
{
    offset + (size as u64)
}

fn wide(n: u32) -> u64
    ensures { result ≡ n }
{
    n as u64
}

// Array n of so many elements.
#[tactic(auto, unfolding(rule_sizes::specs::Sizes::array_of))]
pub fn array_of(n: TypeNumber, e: Measure, count: u32, stride: u32) -> Measure
    ensures { result ≡ array_of n e count stride }
{
    match e {
        Measure::Faulty { fault, place } => Measure::Faulty { fault, place },
        Measure::Fills { align, size } => {
            if is_multiple(align, wide(stride)) & (size <= stride) {
                let p = product(count, stride);
                if p < 4294967296 {
                    Measure::Fills {
                        align,
                        size: p as u32,
                    }
                } else {
                    Measure::Faulty {
                        fault: SizeFault::Huge,
                        place: n,
                    }
                }
            } else {
                Measure::Faulty {
                    fault: SizeFault::Misplaced,
                    place: n,
                }
            }
        }
    }
}

// The fault of the lower type.
fn lower(k: SizeFault, p: TypeNumber, j: SizeFault, q: TypeNumber) -> SoFar
    ensures { result ≡ lower_fault k p j q }
{
    if p.0 <= q.0 {
        SoFar::Broken { fault: k, place: p }
    } else {
        SoFar::Broken { fault: j, place: q }
    }
}

// The next member's offset: WGSL's where the struct is laid out afresh, else the file's; at most 15 past 32 bits.
fn offset_for(afresh: bool, a: Alignment, end: u32, offset: u32) -> u64
    ensures { (result ≡ offset_for afresh a end offset) × (result ≤ 4294967310) }
{
    if afresh {
        round_up(a, end)
    } else {
        wide(offset)
    }
}

// Members that end at `end`.
fn up_to(align: Alignment, end: u64, placed: bool) -> SoFar
    ensures { result ≡ up_to align end placed }
{
    if end < 4294967296 {
        SoFar::Laid {
            align,
            end: end as u32,
            placed,
        }
    } else {
        SoFar::Past
    }
}

// A member that has a size, after those that end within 32 bits.
#[tactic(auto, unfolding(crate::specs::SoFar::member_more))]
fn placed_by(
    afresh: bool,
    b: Alignment,
    end: u32,
    placed: bool,
    offset: u32,
    a: Alignment,
    size: u32,
) -> SoFar
    ensures { result ≡ member_more afresh (SoFar.Laid b end placed) offset (Measure.Fills a size) }
{
    let at = offset_for(afresh, a, end, offset);
    let top = greater(b, a);
    let e = total(at, size);
    let ok = is_multiple(a, at);
    let before = wide(end);
    up_to(top, e, placed & (ok & (before <= at)))
}

// One member more; by the file's offset, or afresh.
#[tactic(auto, unfolding(crate::specs::SoFar::member_more))]
pub fn member_more(afresh: bool, sofar: SoFar, offset: u32, part: Measure) -> SoFar
    ensures { result ≡ member_more afresh sofar offset part }
{
    match sofar {
        SoFar::Broken { fault, place } => match part {
            Measure::Faulty { fault: j, place: q } => lower(fault, place, j, q),
            Measure::Fills { align: _, size: _ } => SoFar::Broken { fault, place },
        },
        SoFar::Past => match part {
            Measure::Faulty { fault: j, place: q } => SoFar::Broken { fault: j, place: q },
            Measure::Fills { align: _, size: _ } => SoFar::Past,
        },
        SoFar::Laid { align, end, placed } => match part {
            Measure::Faulty { fault: j, place: q } => SoFar::Broken { fault: j, place: q },
            Measure::Fills { align: a, size } => placed_by(
                afresh, align, end, placed, offset, a, size,
            ),
        },
    }
}

// Struct n with members, by its span.
#[tactic(auto, unfolding(crate::specs::SoFar::span_end))]
fn span_end(n: TypeNumber, sofar: SoFar, span: u32) -> Measure
    ensures { result ≡ span_end n sofar span }
{
    match sofar {
        SoFar::Broken { fault, place } => Measure::Faulty { fault, place },
        SoFar::Past => Measure::Faulty {
            fault: SizeFault::Misplaced,
            place: n,
        },
        SoFar::Laid { align, end, placed } => {
            let ok = is_multiple(align, wide(span));
            if placed & ((end <= span) & ok) {
                Measure::Fills { align, size: span }
            } else {
                Measure::Faulty {
                    fault: SizeFault::Misplaced,
                    place: n,
                }
            }
        }
    }
}

// Struct n laid out afresh.
#[tactic(auto, unfolding(crate::specs::SoFar::fresh_end))]
fn fresh_end(n: TypeNumber, sofar: SoFar) -> Measure
    ensures { result ≡ fresh_end n sofar }
{
    match sofar {
        SoFar::Broken { fault, place } => Measure::Faulty { fault, place },
        SoFar::Past => Measure::Faulty {
            fault: SizeFault::Huge,
            place: n,
        },
        SoFar::Laid {
            align,
            end,
            placed: _,
        } => {
            let size = round_up(align, end);
            if size < 4294967296 {
                Measure::Fills {
                    align,
                    size: size as u32,
                }
            } else {
                Measure::Faulty {
                    fault: SizeFault::Huge,
                    place: n,
                }
            }
        }
    }
}

// Struct n of so many members: laid out afresh, or by its span.
#[tactic(auto, unfolding(crate::specs::SoFar::struct_by))]
pub fn struct_by(afresh: bool, n: TypeNumber, sofar: SoFar, count: u16, span: u32) -> Measure
    ensures { result ≡ struct_by afresh n sofar count span }
{
    if afresh {
        fresh_end(n, sofar)
    } else if count == 0 {
        Measure::Faulty {
            fault: SizeFault::Unmeasured,
            place: n,
        }
    } else {
        span_end(n, sofar, span)
    }
}
