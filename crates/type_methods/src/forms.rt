// What an answer shows where it is looked into, and what a comparison would answer it with.
ghost use Rattle.std.specs.Prelude.{◌≡◌};
ghost use Rattle.archive.specs.Names.{is_type, size_names};
ghost use Rattle.rule.specs.Answers.{resolved, valued, is_number, is_value, type_answer_of};
ghost use Rattle.rule.specs.Things.{is_count, in_range, array_fault, value_fault, fault_of, sound_form, form_in};
ghost use Rattle.rule.specs.ForProofs.{resolution};

use archive::Starts;
use archive_access::families::{is_type, size_names, type_at};
use check_fields::types::{number_fits, type_fits};
use frames::Frame;
use ir::{ArraySize, TypeInner, TypeKind, TypeNumber, TypeResolution};
use rule::Fault;

// A constant count is at least 1.
fn is_count(size: ArraySize) -> bool
    ensures { result ≡ is_count size }
{
    match size {
        ArraySize::Constant(n) => n != 0,
        ArraySize::Pending(_) => true,
        ArraySize::Dynamic => true,
    }
}

fn in_range(holds: bool) -> Fault
    ensures { result ≡ in_range holds }
{
    if holds { Fault::Sound } else { Fault::Index }
}

fn array_fault(s: Starts, base: TypeNumber, size: ArraySize) -> Fault
    ensures { result ≡ array_fault (is_count size) (is_type s base) (size_names s size) }
{
    if is_count(size) {
        if is_type(s, base) {
            in_range(size_names(s, size))
        } else {
            Fault::Index
        }
    } else {
        Fault::Field
    }
}

// A value: a struct, a count of 0, a base or an override out of range.
pub fn value_fault(s: Starts, t: TypeInner) -> Fault
    ensures { result ≡ value_fault s t }
{
    match t {
        TypeInner::Pointer { base, space: _ } => in_range(is_type(s, base)),
        TypeInner::Array {
            base,
            size,
            stride: _,
        } => array_fault(s, base, size),
        TypeInner::Struct {
            first: _,
            count: _,
            span: _,
        } => Fault::Field,
        TypeInner::BindingArray { base, size } => array_fault(s, base, size),
        _ => Fault::Sound,
    }
}

// What a comparison would answer a type with, of a file whose families begin at `s`.
pub fn fault_of(s: Starts, t: TypeResolution) -> Fault
    ensures { result ≡ fault_of s (resolved t) }
{
    match t {
        TypeResolution::Handle(n) => in_range(is_type(s, n)),
        TypeResolution::Value(t) => value_fault(s, t),
    }
}

fn sound_form(t: TypeInner, fault: Fault) -> Option<TypeInner>
    ensures { result ≡ sound_form t fault }
{
    match fault {
        Fault::Sound => Some(t),
        Fault::Field => None,
        Fault::Index => None,
    }
}

// The form of a type that is looked into.
pub fn form_of(frames: &[u8], s: Starts, t: TypeResolution) -> Option<TypeInner>
    ensures { result ≡ form_in frames.now s (resolved t) }
{
    match t {
        TypeResolution::Handle(n) => type_at(frames, s, n),
        TypeResolution::Value(t) => sound_form(t, value_fault(s, t)),
    }
}

// A value; the frame stands for itself where its kind is unknown.
fn valued(f: Frame, form: Option<TypeInner>) -> Option<TypeResolution>
    ensures { result ≡ resolution (valued f form) }
{
    match form {
        Some(t) => Some(TypeResolution::Value(t)),
        None => None,
    }
}

// The family and the bytes of a type's number.
fn is_number(f: Frame) -> bool
    ensures { result ≡ is_number f }
{
    (f.b0 == 8) & ((f.b1 == 0) & number_fits(f))
}

// The family and the bytes of a value.
fn is_value(f: Frame) -> bool
    ensures { result ≡ is_value f }
{
    (f.b0 == 9) & type_fits(TypeKind::from(f.b1), f)
}

// The type that a frame of family 8 or 9 stands for; every byte counts.
pub fn type_answer(f: Frame) -> Option<TypeResolution>
    ensures { result ≡ resolution (type_answer_of f) }
{
    if is_number(f) {
        let n = f.named();
        Some(TypeResolution::Handle(TypeNumber(n)))
    } else if is_value(f) {
        valued(f, f.type_form())
    } else {
        None
    }
}
