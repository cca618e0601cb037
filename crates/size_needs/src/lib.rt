// What is to be known of other types before a type is measured: nothing, what the element of an array fills, or what
// the members of a struct fill (document 02, requests 5 and 6). A type that is marked is a pending array or holds one,
// and goes by counts.
#![tactic(auto)]

ghost use Rattle.std.specs.Prelude.{◌≡◌};
ghost use Rattle.rule_ranges.specs.Pending.{look_holds};
ghost use Rattle.rule_ranges.specs.Ranges.{counts_of};
ghost use Rattle.size_needs.specs.Needs.{sized_needs, inner_needs, counted_array_needs, counted_needs, needs_of};

use ir::{ArraySize, MemberNumber, TypeInner, TypeNumber};
use rule_sizes::Measure;
use size_pending::{count_at, is_marked};
use size_steps::leaves::{leaf, unmeasured};

// Nothing, for the type is measured; the element of an array of so many; or the members of a struct, which is laid out
// afresh or by the file's offsets and span.
#[derive(Clone, Copy)]
pub enum Needs {
    Nothing(Measure),
    Element {
        base: TypeNumber,
        count: u32,
        stride: u32,
    },
    Members {
        first: MemberNumber,
        count: u16,
        span: u32,
        afresh: bool,
    },
}

// Pending and dynamic arrays are outside the list.
fn sized_needs(n: TypeNumber, base: TypeNumber, size: ArraySize, stride: u32) -> Needs
    ensures { result ≡ sized_needs n base size stride }
{
    match size {
        ArraySize::Constant(c) => Needs::Element {
            base,
            count: c,
            stride,
        },
        ArraySize::Pending(_) => Needs::Nothing(unmeasured(n)),
        ArraySize::Dynamic => Needs::Nothing(unmeasured(n)),
    }
}

fn inner_needs(n: TypeNumber, t: TypeInner) -> Needs
    ensures { result ≡ inner_needs n t }
{
    match t {
        TypeInner::Array { base, size, stride } => sized_needs(n, base, size, stride),
        TypeInner::Struct { first, count, span } => Needs::Members {
            first,
            count,
            span,
            afresh: false,
        },
        _ => Needs::Nothing(leaf(n, t)),
    }
}

// A pending array by its count; an array over a pending one, or over what holds one, is outside the list.
fn counted_array_needs(
    marks: &[bool],
    counts: &[u32],
    n: TypeNumber,
    base: TypeNumber,
    size: ArraySize,
    stride: u32,
) -> Needs
    ensures { result
        ≡ counted_array_needs (look_holds marks.now) (counts_of counts.now) n base size stride }
{
    match size {
        ArraySize::Constant(_) => Needs::Nothing(unmeasured(n)),
        ArraySize::Pending(o) => {
            if is_marked(marks, base) {
                Needs::Nothing(unmeasured(n))
            } else {
                let c = count_at(counts, o.0 as usize);
                Needs::Element {
                    base,
                    count: c,
                    stride,
                }
            }
        }
        ArraySize::Dynamic => Needs::Nothing(unmeasured(n)),
    }
}

// A type that is a pending array or holds one: a struct is laid out afresh.
fn counted_needs(marks: &[bool], counts: &[u32], n: TypeNumber, t: TypeInner) -> Needs
    ensures { result
        ≡ counted_needs (look_holds marks.now) (counts_of counts.now) n t }
{
    match t {
        TypeInner::Array { base, size, stride } => counted_array_needs(
            marks, counts, n, base, size, stride,
        ),
        TypeInner::Struct { first, count, span } => Needs::Members {
            first,
            count,
            span,
            afresh: true,
        },
        _ => Needs::Nothing(unmeasured(n)),
    }
}

// What type n of this form needs; an unknown kind is outside the list.
#[tactic(auto, unfolding(crate::specs::Needs::needs_of))]
pub fn needs_of(marks: &[bool], counts: &[u32], n: TypeNumber, form: Option<TypeInner>) -> Needs
    ensures { result
        ≡ needs_of (look_holds marks.now) (counts_of counts.now) n form }
{
    match form {
        Some(t) => {
            if is_marked(marks, n) {
                counted_needs(marks, counts, n, t)
            } else {
                inner_needs(n, t)
            }
        }
        None => Needs::Nothing(unmeasured(n)),
    }
}
