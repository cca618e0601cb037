// Pointers to atomics, and canonical forms: the source's type_methods.rs, over frames and where their families begin.
ghost use Rattle.std.specs.Prelude.{◌≡◌};
ghost use Rattle.rule_types.specs.Canonical.{value_pointer, form_found, through_base, canonical_form_in};
ghost use Rattle.rule_types.specs.ForProofs.{is_atomic, is_atomic_form, is_atomic_pointer, or_self, canonical_through};
ghost use Rattle.rule_types.specs.ForProofs.{canonical_of};
ghost use Rattle.rule.specs.Answers.{resolved};

use super::forms::form_of;
use archive::Starts;
use archive_access::families::type_at;
use ir::{AddressSpace, TypeInner, TypeResolution};
use rule_types::CanonicalForm;

fn is_atomic(t: TypeInner) -> bool
    ensures { result ≡ is_atomic t }
{
    match t {
        TypeInner::Atomic(_) => true,
        _ => false,
    }
}

fn is_atomic_form(form: Option<TypeInner>) -> Option<bool>
    ensures { result ≡ is_atomic_form form }
{
    match form {
        Some(t) => Some(is_atomic(t)),
        None => None,
    }
}

// Whether a type is a pointer to an atomic; none where its base is of unknown kind.
pub fn is_atomic_pointer(t: TypeInner, frames: &[u8], s: Starts) -> Option<bool>
    ensures { result ≡ is_atomic_pointer frames.now s t }
{
    match t {
        TypeInner::Pointer { base, space: _ } => is_atomic_form(type_at(frames, s, base)),
        _ => Some(false),
    }
}

// The value pointer to a scalar or a vector.
fn value_pointer(space: AddressSpace, base: TypeInner) -> CanonicalForm
    ensures { result ≡ form_found (value_pointer space base) }
{
    match base {
        TypeInner::Scalar(scalar) => CanonicalForm::Some(TypeInner::ValuePointer {
            size: None,
            scalar,
            space,
        }),
        TypeInner::Vector { size, scalar } => CanonicalForm::Some(TypeInner::ValuePointer {
            size: Some(size),
            scalar,
            space,
        }),
        _ => CanonicalForm::None,
    }
}

fn through_base(space: AddressSpace, base: Option<TypeInner>) -> CanonicalForm
    ensures { result ≡ through_base space base }
{
    match base {
        Some(t) => value_pointer(space, t),
        None => CanonicalForm::Newer,
    }
}

// The canonical form of a type, where it is not its own.
pub fn canonical_form(t: TypeInner, frames: &[u8], s: Starts) -> CanonicalForm
    ensures { result ≡ canonical_form_in frames.now s t }
{
    match t {
        TypeInner::Pointer { base, space } => through_base(space, type_at(frames, s, base)),
        _ => CanonicalForm::None,
    }
}

fn or_self(t: TypeInner, form: CanonicalForm) -> Option<TypeInner>
    ensures { result ≡ or_self t form }
{
    match form {
        CanonicalForm::None => Some(t),
        CanonicalForm::Some(u) => Some(u),
        CanonicalForm::Newer => None,
    }
}

fn canonical_through(frames: &[u8], s: Starts, form: Option<TypeInner>) -> Option<TypeInner>
    ensures { result ≡ canonical_through frames.now s form }
{
    match form {
        Some(t) => or_self(t, canonical_form(t, frames, s)),
        None => None,
    }
}

// The canonical form of an answer.
pub fn canonical_of(frames: &[u8], s: Starts, t: TypeResolution) -> Option<TypeInner>
    ensures { result ≡ canonical_of frames.now s (resolved t) }
{
    canonical_through(frames, s, form_of(frames, s, t))
}
