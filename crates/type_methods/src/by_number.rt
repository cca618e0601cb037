// The canonical form and the pointer base of a type, by its number.
ghost use Rattle.std.specs.Prelude.{◌≡◌};
ghost use Rattle.rule_types.specs.Canonical.{base_of_form, pointer_base_in, form_given, canonical_of_form};
ghost use Rattle.rule_types.specs.Canonical.{canonical_type_in};

use super::canonical::canonical_form;
use answers::{CanonicalType, PointerBase, TypeError};
use archive::Starts;
use archive_access::families::{is_type, type_at};
use ir::{TypeInner, TypeNumber, TypeResolution};
use rule_types::CanonicalForm;

fn base_of_form(form: Option<TypeInner>) -> PointerBase
    ensures { result ≡ base_of_form form }
{
    match form {
        Some(t) => Ok(t.pointer_base_type()),
        None => Err(TypeError::Newer),
    }
}

// The base of type n: its number or a value, or that type n is no pointer.
#[tactic(auto, unfolding(rule_types::specs::Canonical::pointer_base_in))]
pub fn pointer_base(frames: &[u8], s: Starts, n: TypeNumber) -> PointerBase
    ensures { result ≡ pointer_base_in frames.now s n }
{
    if !is_type(s, n) {
        return Err(TypeError::Index);
    }
    base_of_form(type_at(frames, s, n))
}

fn form_given(n: TypeNumber, form: CanonicalForm) -> CanonicalType
    ensures { result ≡ form_given n form }
{
    match form {
        CanonicalForm::None => Ok(TypeResolution::Handle(n)),
        CanonicalForm::Some(t) => Ok(TypeResolution::Value(t)),
        CanonicalForm::Newer => Err(TypeError::Newer),
    }
}

fn canonical_of_form(
    frames: &[u8],
    s: Starts,
    n: TypeNumber,
    form: Option<TypeInner>,
) -> CanonicalType
    ensures { result ≡ canonical_of_form frames.now s n form }
{
    match form {
        Some(t) => form_given(n, canonical_form(t, frames, s)),
        None => Err(TypeError::Newer),
    }
}

// The canonical form of type n.
#[tactic(auto, unfolding(rule_types::specs::Canonical::canonical_type_in))]
pub fn canonical_type(frames: &[u8], s: Starts, n: TypeNumber) -> CanonicalType
    ensures { result ≡ canonical_type_in frames.now s n }
{
    if is_type(s, n) {
        canonical_of_form(frames, s, n, type_at(frames, s, n))
    } else {
        Err(TypeError::Index)
    }
}
