// A type in WGSL's spelling (specs/Types.antt), as pieces (rule_explain/specs/Lines.antt), from the bytes of its
// frame.
ghost use Rattle.std.specs.Prelude.{◌≡◌, cond, [], ◌∷◌, ◌+◌};
ghost use Rattle.rule_explain.specs.Types.{picked, is_scalar, named, bytes_of, scalar_words, around, by_number};
ghost use Rattle.rule_explain.specs.Types.{vector, is_brief, brief, within, pointer, array_words, cooperative_words};
ghost use Rattle.rule_explain.specs.Types.{class_name, arrayed_name, image, unknown_kind, inside, whole};
ghost use Rattle.explain_lines.specs.ForProofs.{filled};

use explain_words::{num, table};
use frames::{Frame, frame_at};
use ir::{Scalar, TypeNumber, Width};
use rule_explain::{ScalarWords, Short};

// A byte's number, as a piece.
fn small(n: u8) -> u64
    ensures { result ≡ 4096 + n }
{
    num(n as u32)
}

// A word out of several, by a code.
#[tactic(auto, unfolding(rule_explain::specs::Types::picked))]
pub fn pick(base: u32, lowest: u8, count: u8, code: u8) -> u64
    ensures { result ≡ picked base lowest count code }
{
    if code < lowest {
        return 0;
    }
    let i = code - lowest;
    if i < count {
        return (base as u64) + (i as u64);
    }
    0
}

// Whether these bytes are the kind and the width of a scalar.
fn is_scalar(s: Scalar, kind: u8, width: u8) -> bool
    ensures { result ≡ is_scalar s kind width }
{
    let k = s.kind;
    let w = s.width;
    (kind == u8::from(k)) & (width == u8::from(w))
}

// The scalar's name, if these bytes are that scalar, else the other.
fn name_or(s: Scalar, name: u64, kind: u8, width: u8, other: u64) -> u64
    ensures { result ≡ cond (is_scalar s kind width) name other }
{
    if is_scalar(s, kind, width) {
        return name;
    }
    other
}

// A scalar's name, or none.
#[tactic(auto, unfolding(rule_explain::specs::Types::named))]
fn named(kind: u8, width: u8) -> u64
    ensures { result ≡ named kind width }
{
    let n = name_or(
        Scalar::ABSTRACT_FLOAT,
        table::ABSTRACT_FLOAT,
        kind,
        width,
        0,
    );
    let n = name_or(Scalar::ABSTRACT_INT, table::ABSTRACT_INT, kind, width, n);
    let n = name_or(Scalar::BOOL, table::BOOL, kind, width, n);
    let n = name_or(Scalar::F64, table::F64, kind, width, n);
    let n = name_or(Scalar::F32, table::F32, kind, width, n);
    let n = name_or(Scalar::F16, table::F16, kind, width, n);
    let n = name_or(Scalar::U64, table::U64, kind, width, n);
    let n = name_or(Scalar::U32, table::U32, kind, width, n);
    let n = name_or(Scalar::U16, table::U16, kind, width, n);
    let n = name_or(Scalar::I64, table::I64, kind, width, n);
    let n = name_or(Scalar::I32, table::I32, kind, width, n);
    name_or(Scalar::I16, table::I16, kind, width, n)
}

// How many bytes, of a width.
fn bytes_of(width: u8) -> u64
    ensures { result ≡ bytes_of width }
{
    if Width::is_number(width) {
        return small(width);
    }
    0
}

#[tactic(auto, unfolding(rule_explain::specs::Types::scalar_words))]
fn scalar_words(kind: u8, width: u8) -> ScalarWords
    ensures { result ≡ scalar_words kind width }
{
    let n = named(kind, width);
    if n == 0 {
        let name = pick(table::PLAIN, 0, 6, kind);
        let w = bytes_of(width);
        return ScalarWords {
            name,
            width: w,
            bytes: table::BYTES,
        };
    }
    ScalarWords {
        name: n,
        width: 0,
        bytes: 0,
    }
}

// A scalar with words and sizes before it, and a word after it.
#[tactic(auto, unfolding(rule_explain::specs::Types::around))]
fn around(
    lead: u64,
    first: u64,
    x: u64,
    second: u64,
    less: u64,
    kind: u8,
    width: u8,
    close: u64,
) -> Short
    ensures { result ≡ around lead first x second less kind width close }
{
    let s = scalar_words(kind, width);
    Short {
        lead,
        first,
        x,
        second,
        less,
        name: s.name,
        width: s.width,
        bytes: s.bytes,
        close,
    }
}

#[tactic(auto, unfolding(rule_explain::specs::Types::vector))]
fn vector(size: u8, kind: u8, width: u8) -> Short
    ensures { result ≡ vector size kind width }
{
    if size == 0 {
        return around(0, 0, 0, 0, 0, kind, width, 0);
    }
    around(
        table::VEC,
        small(size),
        0,
        0,
        table::LESS,
        kind,
        width,
        table::MORE,
    )
}

// Whether a type of this kind is spelled where another names it: a scalar, vector, matrix or atomic.
fn is_brief(kind: u8) -> bool
    ensures { result ≡ is_brief kind }
{
    (kind == 1) | ((kind == 2) | ((kind == 3) | (kind == 5)))
}

// Such a type.
#[tactic(auto, unfolding(rule_explain::specs::Types::brief))]
fn brief(f: Frame) -> Short
    ensures { result ≡ brief f }
{
    let k = f.b1;
    if k == 1 {
        return vector(0, f.b4, f.b5);
    }
    if k == 2 {
        return vector(f.b2, f.b4, f.b5);
    }
    if k == 3 {
        return around(
            table::MAT,
            small(f.b2),
            table::X,
            small(f.b3),
            table::LESS,
            f.b4,
            f.b5,
            table::MORE,
        );
    }
    around(table::ATOMIC, 0, 0, 0, 0, f.b4, f.b5, table::MORE)
}

// A type by its number.
fn by_number(n: TypeNumber) -> Short
    ensures { result ≡ by_number n }
{
    let first = num(n.0 as u32);
    Short {
        lead: table::TYPE,
        first,
        x: 0,
        second: 0,
        less: 0,
        name: 0,
        width: 0,
        bytes: 0,
        close: 0,
    }
}

// Type n of a file, by its frames: spelled, or by its number.
#[tactic(auto, unfolding(rule_explain::specs::Types::within))]
fn within(frames: &[u8], n: TypeNumber) -> Short
    ensures { result ≡ within frames.now n }
{
    let f = frame_at(frames, n.0 as usize);
    if is_brief(f.b1) {
        return brief(f);
    }
    by_number(n)
}

#[tactic(auto, unfolding(rule_explain::specs::Types::pointer, crate::specs::ForProofs::filled))]
fn pointer(lead: u64, s: Short, space: u8, access: u8) -> [u64; 16]
    ensures { result ≡ filled 16 (pointer lead s space access) }
{
    let name = pick(table::SPACE, 0, 10, space);
    if space == 4 {
        let a = pick(table::ACCESS, 0, 8, access);
        return [
            lead,
            name,
            table::COMMA,
            s.lead,
            s.first,
            s.x,
            s.second,
            s.less,
            s.name,
            s.width,
            s.bytes,
            s.close,
            table::COMMA,
            a,
            table::MORE,
            0,
        ];
    }
    [
        lead,
        name,
        table::COMMA,
        s.lead,
        s.first,
        s.x,
        s.second,
        s.less,
        s.name,
        s.width,
        s.bytes,
        s.close,
        table::MORE,
        0,
        0,
        0,
    ]
}

#[tactic(auto, unfolding(rule_explain::specs::Types::array_words, crate::specs::ForProofs::filled))]
fn array(lead: u64, s: Short, form: u8, count: u32) -> [u64; 16]
    ensures { result ≡ filled 16 (array_words lead s form count) }
{
    let n = num(count);
    if form == 0 {
        return [
            lead,
            s.lead,
            s.first,
            s.x,
            s.second,
            s.less,
            s.name,
            s.width,
            s.bytes,
            s.close,
            table::COMMA,
            n,
            table::MORE,
            0,
            0,
            0,
        ];
    }
    if form == 1 {
        return [
            lead,
            s.lead,
            s.first,
            s.x,
            s.second,
            s.less,
            s.name,
            s.width,
            s.bytes,
            s.close,
            table::OVERRIDE,
            n,
            table::MORE,
            0,
            0,
            0,
        ];
    }
    [
        lead,
        s.lead,
        s.first,
        s.x,
        s.second,
        s.less,
        s.name,
        s.width,
        s.bytes,
        s.close,
        table::MORE,
        0,
        0,
        0,
        0,
        0,
    ]
}

// A type that has its own words only, with two words after it.
#[tactic(auto, unfolding(crate::specs::ForProofs::filled))]
fn plain(s: Short, a: u64, b: u64) -> [u64; 16]
    ensures { result ≡ filled 16 (inside s (a ∷ b ∷ [])) }
{
    [
        s.lead, s.first, s.x, s.second, s.less, s.name, s.width, s.bytes, s.close, a, b, 0, 0, 0,
        0, 0,
    ]
}

#[tactic(auto, unfolding(rule_explain::specs::Types::cooperative_words, crate::specs::ForProofs::filled))]
fn cooperative(f: Frame) -> [u64; 16]
    ensures { result ≡ filled 16 (cooperative_words f) }
{
    let s = around(
        table::COOPERATIVE,
        small(f.b2),
        table::X,
        small(f.b3),
        table::LESS,
        f.b4,
        f.b5,
        0,
    );
    plain(s, pick(table::ROLE, 0, 3, f.b6), table::MORE)
}

#[tactic(auto, unfolding(rule_explain::specs::Types::class_name))]
fn class_name(class: u8, multi: u8) -> u64
    ensures { result ≡ class_name class multi }
{
    if class == 0 {
        if multi == 1 {
            return table::MULTISAMPLED;
        }
        return 0;
    }
    if class == 1 {
        if multi == 1 {
            return table::DEEP_MULTI;
        }
        return table::DEPTH;
    }
    table::STORAGE
}

#[tactic(auto, unfolding(rule_explain::specs::Types::arrayed_name))]
fn arrayed(flag: u8) -> u64
    ensures { result ≡ arrayed_name flag }
{
    if flag == 1 {
        return table::ARRAYED;
    }
    0
}

#[tactic(auto, unfolding(rule_explain::specs::Types::image, crate::specs::ForProofs::filled))]
fn image(f: Frame) -> [u64; 16]
    ensures { result ≡ filled 16 (image f) }
{
    let class = f.b4;
    if class == 2 {
        return [table::EXTERNAL, 0, 0, 0, 0, 0, 0, 0, 0, 0, 0, 0, 0, 0, 0, 0];
    }
    let c = class_name(class, f.b6);
    let d = pick(table::DIMENSION, 1, 4, f.b2);
    let a = arrayed(f.b3);
    if class == 0 {
        let k = pick(table::SAMPLED, 0, 6, f.b5);
        return [
            table::TEXTURE,
            c,
            d,
            a,
            table::LESS,
            k,
            table::MORE,
            0,
            0,
            0,
            0,
            0,
            0,
            0,
            0,
            0,
        ];
    }
    if class == 1 {
        return [table::TEXTURE, c, d, a, 0, 0, 0, 0, 0, 0, 0, 0, 0, 0, 0, 0];
    }
    let k = pick(table::FORMAT, 0, 41, f.b5);
    let e = pick(table::ACCESS, 0, 8, f.b7);
    [
        table::TEXTURE,
        c,
        d,
        a,
        table::LESS,
        k,
        table::COMMA,
        e,
        table::MORE,
        0,
        0,
        0,
        0,
        0,
        0,
        0,
    ]
}

// One piece, or two.
#[tactic(auto, unfolding(crate::specs::ForProofs::filled))]
fn one(w: u64) -> [u64; 16]
    ensures { result ≡ filled 16 (w ∷ []) }
{
    [w, 0, 0, 0, 0, 0, 0, 0, 0, 0, 0, 0, 0, 0, 0, 0]
}

#[tactic(auto, unfolding(crate::specs::ForProofs::filled))]
fn unknown(kind: u8) -> [u64; 16]
    ensures { result ≡ filled 16 (unknown_kind kind) }
{
    let n = small(kind);
    [table::UNKNOWN, n, 0, 0, 0, 0, 0, 0, 0, 0, 0, 0, 0, 0, 0, 0]
}

// The type that a frame stands for.
#[tactic(auto, unfolding(rule_explain::specs::Types::whole, crate::specs::ForProofs::filled))]
pub fn whole(frames: &[u8], f: Frame) -> [u64; 16]
    ensures { result ≡ filled 16 (whole frames.now f) }
{
    let k = f.b1;
    if k == 6 {
        return pointer(
            table::POINTER,
            within(frames, TypeNumber(f.named())),
            f.b6,
            f.b7,
        );
    }
    if k == 7 {
        return pointer(table::VALUE, vector(f.b2, f.b4, f.b5), f.b6, f.b7);
    }
    if k == 8 {
        return array(
            table::ARRAY,
            within(frames, TypeNumber(f.named())),
            f.b4,
            f.third(),
        );
    }
    if k == 14 {
        return array(
            table::BINDINGS,
            within(frames, TypeNumber(f.named())),
            f.b4,
            f.third(),
        );
    }
    if k == 4 {
        return cooperative(f);
    }
    if k == 9 {
        return one(table::STRUCT);
    }
    if k == 10 {
        return image(f);
    }
    if k == 11 {
        return one(pick(table::SAMPLER, 0, 2, f.b2));
    }
    if k == 12 {
        return one(pick(table::STRUCTURE, 0, 2, f.b2));
    }
    if k == 13 {
        return one(pick(table::QUERY, 0, 2, f.b2));
    }
    if is_brief(k) {
        return plain(brief(f), 0, 0);
    }
    unknown(k)
}
