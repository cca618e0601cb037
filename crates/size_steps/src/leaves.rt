// Alignment and size of types that name no type: WGSL's scalars, vectors, matrices and atomics.
ghost use Rattle.std.specs.Prelude.{◌≡◌};
ghost use Rattle.rule_sizes.specs.Wgsl.{bytes, alignment_of, round_up, integer_align, float_align, number_align};
ghost use Rattle.rule_sizes.specs.Wgsl.{align_count};
ghost use Rattle.rule_sizes.specs.Wgsl.{vector_align, vector_bytes, matrix_bytes};
ghost use Rattle.rule_sizes.specs.Sizes.{scalar_measure, vector_measure, matrix_measure, leaf_of};

use ir::{Scalar, TypeInner, TypeNumber, VectorSize};
use rule_sizes::{Alignment, Measure, SizeFault};

pub fn alignment_bytes(a: Alignment) -> u8
    ensures { result ≡ bytes a }
{
    match a {
        Alignment::Two => 2,
        Alignment::Four => 4,
        Alignment::Eight => 8,
        Alignment::Sixteen => 16,
    }
}

pub fn alignment_of(b: u8) -> Alignment
    ensures { result ≡ alignment_of b }
{
    if b == 2 {
        Alignment::Two
    } else if b == 4 {
        Alignment::Four
    } else if b == 8 {
        Alignment::Eight
    } else {
        Alignment::Sixteen
    }
}

// WGSL's round_up.
pub fn round_up(a: Alignment, n: u32) -> u64
    ensures { result ≡ round_up a n }
{
    match a {
        Alignment::Two => ((n as u64) + 1) / 2 * 2,
        Alignment::Four => ((n as u64) + 3) / 4 * 4,
        Alignment::Eight => ((n as u64) + 7) / 8 * 8,
        Alignment::Sixteen => ((n as u64) + 15) / 16 * 16,
    }
}

fn integer_align(k: Scalar) -> Option<Alignment>
    ensures { result ≡ integer_align k }
{
    if (k == Scalar::I32) | (k == Scalar::U32) {
        Some(Alignment::Four)
    } else {
        None
    }
}

fn float_align(k: Scalar) -> Option<Alignment>
    ensures { result ≡ float_align k }
{
    if k == Scalar::F32 {
        Some(Alignment::Four)
    } else if k == Scalar::F16 {
        Some(Alignment::Two)
    } else {
        None
    }
}

fn number_align(k: Scalar) -> Option<Alignment>
    ensures { result ≡ number_align k }
{
    match integer_align(k) {
        Some(a) => Some(a),
        None => float_align(k),
    }
}

// A vector of three is aligned as one of four.
fn align_count(z: VectorSize) -> u8
    ensures { result ≡ align_count z }
{
    match z {
        VectorSize::Bi => 2,
        VectorSize::Tri => 4,
        VectorSize::Quad => 4,
    }
}

fn vector_align(z: VectorSize, a: Alignment) -> Alignment
    ensures { result ≡ vector_align z a }
{
    alignment_of(align_count(z) * alignment_bytes(a))
}

fn vector_bytes(z: VectorSize, a: Alignment) -> u32
    ensures { result ≡ vector_bytes z a }
{
    u32::from(z) * (alignment_bytes(a) as u32)
}

// An array of columns.
fn matrix_bytes(c: VectorSize, r: VectorSize, a: Alignment) -> u32
    ensures { result ≡ matrix_bytes c r a }
{
    let stride = round_up(vector_align(r, a), vector_bytes(r, a));
    u32::from(c) * (stride as u32)
}

// Number 42.
pub fn unmeasured(n: TypeNumber) -> Measure
    ensures { result ≡ Measure.Faulty SizeFault.Unmeasured n }
{
    Measure::Faulty {
        fault: SizeFault::Unmeasured,
        place: n,
    }
}

fn scalar_measure(n: TypeNumber, o: Option<Alignment>) -> Measure
    ensures { result ≡ scalar_measure n o }
{
    match o {
        Some(a) => Measure::Fills {
            align: a,
            size: alignment_bytes(a) as u32,
        },
        None => unmeasured(n),
    }
}

fn vector_measure(n: TypeNumber, z: VectorSize, o: Option<Alignment>) -> Measure
    ensures { result ≡ vector_measure n z o }
{
    match o {
        Some(a) => Measure::Fills {
            align: vector_align(z, a),
            size: vector_bytes(z, a),
        },
        None => unmeasured(n),
    }
}

fn matrix_measure(n: TypeNumber, c: VectorSize, r: VectorSize, o: Option<Alignment>) -> Measure
    ensures { result ≡ matrix_measure n c r o }
{
    match o {
        Some(a) => Measure::Fills {
            align: vector_align(r, a),
            size: matrix_bytes(c, r, a),
        },
        None => unmeasured(n),
    }
}

// A type that names none.
pub fn leaf(n: TypeNumber, t: TypeInner) -> Measure
    ensures { result ≡ leaf_of n t }
{
    match t {
        TypeInner::Scalar(k) => scalar_measure(n, number_align(k)),
        TypeInner::Vector { size, scalar } => vector_measure(n, size, number_align(scalar)),
        TypeInner::Matrix {
            columns,
            rows,
            scalar,
        } => { matrix_measure(n, columns, rows, float_align(scalar)) }
        TypeInner::Atomic(k) => scalar_measure(n, integer_align(k)),
        _ => unmeasured(n),
    }
}
