// Number 5, of types: whether the bytes of a frame are within the values of its layout, and zero where no field stands.
ghost use Rattle.std.specs.Prelude.{◌≡◌, true, ◌&&◌, ◌||◌, leb, ltb, eqb};
ghost use Rattle.frames.specs.Fields.{fits, fits_all, is_size, is_space, is_array_size, class, scalar};
ghost use Rattle.frames.specs.Layout.{type_layout, number_layout};

use frames::Frame;
use ir::{TypeKind, Width};

pub fn size_fits(b: u8) -> bool
    ensures { result ≡ is_size b }
{
    (2 <= b) & (b < 5)
}

fn dimension_fits(b: u8) -> bool
    ensures { result ≡ (leb 1 b && ltb b 5) }
{
    (1 <= b) & (b < 5)
}

fn option_size_fits(b: u8) -> bool
    ensures { result ≡ (eqb b 0 || is_size b) }
{
    (b == 0) | ((2 <= b) & (b < 5))
}

pub fn cooperative_fits(b: u8) -> bool
    ensures { result ≡ (eqb b 8 || eqb b 16) }
{
    (b == 8) | (b == 16)
}

// A kind, and a width that a scalar may have.
fn scalar_fits(f: Frame) -> bool
    ensures { result ≡ fits scalar f }
{
    (f.b4 < 6) & Width::is_number(f.b5)
}

pub fn space_fits(space: u8, access: u8) -> bool
    ensures { result ≡ is_space space access }
{
    if space == 4 {
        access < 8
    } else {
        (space < 10) & (access == 0)
    }
}

fn array_size_fits(form: u8, n: u32) -> bool
    ensures { result ≡ is_array_size form n }
{
    match form {
        0 => n != 0,
        1 => true,
        2 => n == 0,
        _ => false,
    }
}

fn class_fits(f: Frame) -> bool
    ensures { result ≡ fits class f }
{
    let c = f.b4;
    match c {
        0 => (f.b5 < 6) & ((f.b6 < 2) & (f.b7 == 0)),
        1 => (f.b5 == 0) & ((f.b6 < 2) & (f.b7 == 0)),
        2 => (f.b5 == 0) & ((f.b6 == 0) & (f.b7 == 0)),
        3 => (f.b5 < 41) & ((f.b6 == 0) & (f.b7 < 8)),
        _ => false,
    }
}

pub fn zero_from_12(f: Frame) -> bool
    ensures { result ≡ (eqb f.b12 0 && (eqb f.b13 0 && (eqb f.b14 0 && (eqb f.b15 0 && true)))) }
{
    (f.b12 == 0) & ((f.b13 == 0) & ((f.b14 == 0) & ((f.b15 == 0))))
}

pub fn zero_from_8(f: Frame) -> bool
    ensures { result
        ≡ (eqb f.b8 0 && (eqb f.b9 0 && (eqb f.b10 0 &&
        (eqb f.b11 0 && (eqb f.b12 0 && (eqb f.b13 0 && (eqb f.b14 0 && (eqb f.b15 0 && true)))))))) }
{
    (f.b8 == 0) & ((f.b9 == 0) & ((f.b10 == 0) & ((f.b11 == 0) & (zero_from_12(f)))))
}

pub fn zero_from_4(f: Frame) -> bool
    ensures { result
        ≡ (eqb f.b4 0 && (eqb f.b5 0 && (eqb f.b6 0 && (eqb f.b7 0 && (eqb f.b8 0 && (eqb f.b9 0 &&
        (eqb f.b10 0 &&
        (eqb f.b11 0 && (eqb f.b12 0 && (eqb f.b13 0 && (eqb f.b14 0 && (eqb f.b15 0 && true)))))))))))) }
{
    (f.b4 == 0) & ((f.b5 == 0) & ((f.b6 == 0) & ((f.b7 == 0) & (zero_from_8(f)))))
}

pub fn zero_8_11(f: Frame) -> bool
    ensures { result ≡ (eqb f.b8 0 && (eqb f.b9 0 && (eqb f.b10 0 && (eqb f.b11 0 && true)))) }
{
    (f.b8 == 0) & ((f.b9 == 0) & ((f.b10 == 0) & ((f.b11 == 0))))
}

// A type number, family 8 or what names a type, after its family and kind.
pub fn number_fits(f: Frame) -> bool
    ensures { result ≡ fits_all number_layout f }
{
    zero_from_4(f)
}

// A type of a kind, family 1 or a value of family 9.
pub fn type_fits(kind: TypeKind, f: Frame) -> bool
    ensures { result ≡ fits_all (type_layout kind) f }
{
    match kind {
        TypeKind::Unknown => true,
        TypeKind::Scalar | TypeKind::Atomic => scalar_fits(f)
            & ((f.b2 == 0) & ((f.b3 == 0) & ((f.b6 == 0) & ((f.b7 == 0) & (zero_from_8(f)))))),
        TypeKind::Vector => size_fits(f.b2)
            & (scalar_fits(f) & ((f.b3 == 0) & ((f.b6 == 0) & ((f.b7 == 0) & (zero_from_8(f)))))),
        TypeKind::Matrix => size_fits(f.b2)
            & (size_fits(f.b3)
                & (scalar_fits(f) & ((f.b6 == 0) & ((f.b7 == 0) & (zero_from_8(f)))))),
        TypeKind::CooperativeMatrix => cooperative_fits(f.b2)
            & (cooperative_fits(f.b3)
                & (scalar_fits(f) & ((f.b6 < 3) & ((f.b7 == 0) & (zero_from_8(f)))))),
        TypeKind::Pointer => space_fits(f.b6, f.b7)
            & ((f.b4 == 0) & ((f.b5 == 0) & (zero_from_8(f)))),
        TypeKind::ValuePointer => option_size_fits(f.b2)
            & (scalar_fits(f) & (space_fits(f.b6, f.b7) & ((f.b3 == 0) & (zero_from_8(f))))),
        TypeKind::Array => array_size_fits(f.b4, f.third())
            & ((f.b5 == 0) & ((f.b6 == 0) & ((f.b7 == 0)))),
        TypeKind::Struct => (f.b6 == 0) & ((f.b7 == 0) & (zero_8_11(f))),
        TypeKind::Image => dimension_fits(f.b2) & ((f.b3 < 2) & (class_fits(f) & (zero_from_8(f)))),
        TypeKind::Sampler | TypeKind::AccelerationStructure | TypeKind::RayQuery => (f.b2 < 2)
            & ((f.b3 == 0) & (zero_from_4(f))),
        TypeKind::BindingArray => array_size_fits(f.b4, f.third())
            & ((f.b5 == 0) & ((f.b6 == 0) & ((f.b7 == 0) & (zero_from_12(f))))),
    }
}
