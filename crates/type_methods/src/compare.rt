// The comparison of two types, by their canonical forms.
ghost use Rattle.std.specs.Prelude.{◌≡◌};
ghost use Rattle.rule.specs.Answers.{resolved, nowhere};
ghost use Rattle.rule.specs.Rule.{done};
ghost use Rattle.rule.specs.Things.{is_struct_inner, is_struct_form, is_struct};
ghost use Rattle.rule_types.specs.Comparison.{compare, given};
ghost use Rattle.rule_types.specs.ForProofs.{optional, found, by_forms};

use super::canonical::canonical_of;
use archive::Starts;
use archive_access::families::type_at;
use ir::{TypeInner, TypeResolution};

fn is_struct_inner(t: TypeInner) -> bool
    ensures { result ≡ is_struct_inner t }
{
    match t {
        TypeInner::Struct {
            first: _,
            count: _,
            span: _,
        } => true,
        _ => false,
    }
}

fn is_struct_form(form: Option<TypeInner>) -> bool
    ensures { result ≡ is_struct_form form }
{
    match form {
        Some(t) => is_struct_inner(t),
        None => false,
    }
}

// Whether a type is the number of a struct.
pub fn is_struct(frames: &[u8], s: Starts, t: TypeResolution) -> bool
    ensures { result ≡ is_struct frames.now s (resolved t) }
{
    match t {
        TypeResolution::Handle(n) => is_struct_form(type_at(frames, s, n)),
        TypeResolution::Value(_) => false,
    }
}

// Whether two forms are equal. A test of the bytes of their frames is proved too, none of them left out
// (must-fail/byte_left_out.edit).
#[tactic(auto, using(rule_types::proofs::Derived::types_equal), unfolding(rule_types::specs::Canonical::equal_types))]
fn to_right(t: TypeInner, right: Option<TypeInner>) -> Option<bool>
    ensures { result ≡ found (by_forms (Some t) right) }
{
    match right {
        Some(u) => Some(t == u),
        None => None,
    }
}

fn by_forms(left: Option<TypeInner>, right: Option<TypeInner>) -> Option<bool>
    ensures { result ≡ found (by_forms left right) }
{
    match left {
        Some(t) => to_right(t, right),
        None => None,
    }
}

// Whether two types are the same: identical ones are, the number of a struct is no other type, else canonical forms are
// compared.
#[tactic(auto, using(rule_types::proofs::Derived::resolutions_equal))]
pub fn compare_types(frames: &[u8], s: Starts, a: TypeResolution, b: TypeResolution) -> Option<bool>
    ensures { result ≡ optional (given frames.now s (compare nowhere (resolved a) (resolved b) done)) }
{
    if a == b {
        Some(true)
    } else {
        if is_struct(frames, s, a) | is_struct(frames, s, b) {
            Some(false)
        } else {
            by_forms(canonical_of(frames, s, a), canonical_of(frames, s, b))
        }
    }
}
