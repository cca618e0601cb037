// Types written as frames (document 01, the end of "The file"): a type number is family 8, a value family 9, laid as a
// type. Numbers are written by their bytes, the low one first.
ghost use Rattle.std.specs.Prelude.{◌≡◌, ◌/◌, ◌%◌};
ghost use Rattle.ir.specs.Numbers.{scalar_kind_number, width_number, flag_number};
ghost use Rattle.frames.specs.Fields.{option_size_number, form_number, form_count};
ghost use Rattle.frames.specs.Out.{type_frame, number_frame, resolution_frame};
ghost use Rattle.frames.specs.ForProofs.{packed};

use frames::Frame;
use ir::{
    AddressSpace, ArraySize, ImageClass, ImageDimension, MemberNumber, Scalar, TypeInner,
    TypeNumber, TypeResolution, VectorSize,
};

// A number of two bytes: its low byte, and its high byte.
fn low(n: u16) -> u8
    ensures { result ≡ n % 256 }
{
    (n % 256) as u8
}

fn high(n: u16) -> u8
    ensures { result ≡ n / 256 }
{
    (n / 256) as u8
}

// The bytes 0 to 7 as they are, and a number in bytes 8 to 11 and in 12 to 15.
fn packed(
    family: u8,
    kind: u8,
    b2: u8,
    b3: u8,
    b4: u8,
    b5: u8,
    b6: u8,
    b7: u8,
    third: u32,
    last: u32,
) -> Frame
    ensures { result ≡ packed family kind b2 b3 b4 b5 b6 b7 third last }
{
    Frame {
        b0: family,
        b1: kind,
        b2,
        b3,
        b4,
        b5,
        b6,
        b7,
        b8: (third % 256) as u8,
        b9: (third / 256 % 256) as u8,
        b10: (third / 256 / 256 % 256) as u8,
        b11: (third / 256 / 256 / 256) as u8,
        b12: (last % 256) as u8,
        b13: (last / 256 % 256) as u8,
        b14: (last / 256 / 256 % 256) as u8,
        b15: (last / 256 / 256 / 256) as u8,
    }
}

// A type of the file, by number.
pub fn number_frame(n: TypeNumber) -> Frame
    ensures { result ≡ number_frame n }
{
    packed(8, 0, low(n.0), high(n.0), 0, 0, 0, 0, 0, 0)
}

// A size's number, or 0.
fn option_size_number(n: Option<VectorSize>) -> u8
    ensures { result ≡ option_size_number n }
{
    match n {
        None => 0,
        Some(size) => u8::from(size),
    }
}

// An array's form: 0 constant, 1 pending, 2 dynamic.
fn form_number(z: ArraySize) -> u8
    ensures { result ≡ form_number z }
{
    match z {
        ArraySize::Constant(_) => 0,
        ArraySize::Pending(_) => 1,
        ArraySize::Dynamic => 2,
    }
}

// An array's count or override number, 0 if dynamic.
fn form_count(z: ArraySize) -> u32
    ensures { result ≡ form_count z }
{
    match z {
        ArraySize::Constant(n) => n,
        ArraySize::Pending(o) => o.0,
        ArraySize::Dynamic => 0,
    }
}

// An image, by its class.
fn image_frame(dim: ImageDimension, arrayed: bool, class: ImageClass) -> Frame
    ensures { result ≡ type_frame 9 (TypeInner.Image dim arrayed class) }
{
    let d = u8::from(dim);
    let a = u8::from(arrayed);
    match class {
        ImageClass::Sampled { kind, multi } => {
            packed(9, 10, d, a, 0, u8::from(kind), u8::from(multi), 0, 0, 0)
        }
        ImageClass::Depth { multi } => packed(9, 10, d, a, 1, 0, u8::from(multi), 0, 0, 0),
        ImageClass::External => packed(9, 10, d, a, 2, 0, 0, 0, 0, 0),
        ImageClass::Storage { format, access } => {
            packed(9, 10, d, a, 3, u8::from(format), 0, u8::from(access), 0, 0)
        }
    }
}

// A value of a kind that has a scalar in bytes 4 and 5.
pub fn scalar_frame(kind: u8, b2: u8, b3: u8, s: Scalar, b6: u8, b7: u8) -> Frame
    ensures { result ≡ packed 9 kind b2 b3 (scalar_kind_number s.kind) (width_number s.width) b6 b7 0 0 }
{
    let k = s.kind;
    let w = s.width;
    packed(9, kind, b2, b3, u8::from(k), u8::from(w), b6, b7, 0, 0)
}

// A pointer: base, space and access.
pub fn pointer_frame(base: TypeNumber, space: AddressSpace) -> Frame
    ensures { result ≡ type_frame 9 (TypeInner.Pointer base space) }
{
    let (space, access) = space.into();
    packed(9, 6, low(base.0), high(base.0), 0, 0, space, access, 0, 0)
}

// A value of a kind that has a base and an array's size.
fn array_frame(kind: u8, base: TypeNumber, size: ArraySize, stride: u32) -> Frame
    ensures { result
        ≡ packed 9 kind (base.0 % 256) (base.0 / 256) (form_number size) 0 0 0 (form_count size) stride }
{
    let n = form_count(size);
    packed(
        9,
        kind,
        low(base.0),
        high(base.0),
        form_number(size),
        0,
        0,
        0,
        n,
        stride,
    )
}

// A struct: first member, how many, span.
fn struct_frame(first: MemberNumber, count: u16, span: u32) -> Frame
    ensures { result ≡ type_frame 9 (TypeInner.Struct first count span) }
{
    packed(
        9,
        9,
        low(first.0),
        high(first.0),
        low(count),
        high(count),
        0,
        0,
        0,
        span,
    )
}

// A value of a kind that has a flag in byte 2.
fn flag_frame(kind: u8, q: bool) -> Frame
    ensures { result ≡ packed 9 kind (flag_number q) 0 0 0 0 0 0 0 }
{
    packed(9, kind, u8::from(q), 0, 0, 0, 0, 0, 0, 0)
}

// A type that stands by value.
pub fn value_frame(t: TypeInner) -> Frame
    ensures { result ≡ type_frame 9 t }
{
    match t {
        TypeInner::Scalar(s) => scalar_frame(1, 0, 0, s, 0, 0),
        TypeInner::Vector { size, scalar: s } => scalar_frame(2, u8::from(size), 0, s, 0, 0),
        TypeInner::Matrix {
            columns,
            rows,
            scalar: s,
        } => scalar_frame(3, u8::from(columns), u8::from(rows), s, 0, 0),
        TypeInner::CooperativeMatrix {
            columns,
            rows,
            scalar: s,
            role,
        } => scalar_frame(4, u8::from(columns), u8::from(rows), s, u8::from(role), 0),
        TypeInner::Atomic(s) => scalar_frame(5, 0, 0, s, 0, 0),
        TypeInner::Pointer { base, space } => pointer_frame(base, space),
        TypeInner::ValuePointer {
            size,
            scalar: s,
            space,
        } => {
            let (space, access) = space.into();
            scalar_frame(7, option_size_number(size), 0, s, space, access)
        }
        TypeInner::Array { base, size, stride } => array_frame(8, base, size, stride),
        TypeInner::Struct { first, count, span } => struct_frame(first, count, span),
        TypeInner::Image {
            dim,
            arrayed,
            class,
        } => image_frame(dim, arrayed, class),
        TypeInner::Sampler { comparison } => flag_frame(11, comparison),
        TypeInner::AccelerationStructure { vertex_return } => flag_frame(12, vertex_return),
        TypeInner::RayQuery { vertex_return } => flag_frame(13, vertex_return),
        TypeInner::BindingArray { base, size } => array_frame(14, base, size, 0),
    }
}

// The type that a row was given.
pub fn resolution_frame(r: TypeResolution) -> Frame
    ensures { result ≡ resolution_frame r }
{
    match r {
        TypeResolution::Handle(n) => number_frame(n),
        TypeResolution::Value(t) => value_frame(t),
    }
}
