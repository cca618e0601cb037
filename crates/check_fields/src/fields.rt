// Number 5: whether the bytes of a frame are within the values of its layout, and zero where no field stands.
ghost use Rattle.std.specs.Prelude.{◌≡◌, true, []};
ghost use Rattle.frames.specs.Fields.{fits, fits_all, is_option, is_convert, query, relational, fields};
ghost use Rattle.frames.specs.Layout.{item_layout, row_layout};
ghost use Rattle.frames.specs.Forms.{fields_fit};

use super::types::{
    cooperative_fits, size_fits, space_fits, type_fits, zero_8_11, zero_from_4, zero_from_8,
    zero_from_12,
};
use frames::Frame;
use ir::{ItemKind, RowKind, TypeKind, Width};

fn option_fits(flag: u8, n: u16) -> bool
    ensures { result ≡ is_option flag n }
{
    (flag < 2) & ((flag == 1) | (n == 0))
}

// A flag; where it is set a width, and where it is clear zero.
fn convert_fits(flag: u8, width: u8) -> bool
    ensures { result ≡ is_convert flag width }
{
    if flag == 1 {
        Width::is_number(width)
    } else {
        (flag == 0) & (width == 0)
    }
}

fn query_fits(f: Frame) -> bool
    ensures { result ≡ fits query f }
{
    (f.b6 < 4) & ((f.b6 == 0) | (f.named() == 0))
}

fn relational_fits(f: Frame) -> bool
    ensures { result ≡ fits relational f }
{
    (f.b6 < 4) & ((2 <= f.b6) | (f.named() == 0))
}

// No field stands.
fn no_field(f: Frame) -> bool
    ensures { result ≡ fits_all (fields []) f }
{
    (f.b2 == 0) & ((f.b3 == 0) & (zero_from_4(f)))
}

// Whether the bytes of a frame of a file are within their values.
#[tactic(auto, unfolding(frames::specs::Forms::fields_fit))]
pub fn fields_fit(f: Frame) -> bool
    ensures { result ≡ fields_fit f }
{
    let family = f.b0;
    match family {
        0 => true,
        1 => type_fits(TypeKind::from(f.b1), f),
        2 => (f.b1 == 0)
            & ((f.b4 == 0) & ((f.b5 == 0) & ((f.b6 == 0) & ((f.b7 == 0) & (zero_8_11(f)))))),
        3 => item_fits(ItemKind::from(f.b1), f),
        4 => row_fits(RowKind::from(f.b1), f),
        5 => (f.b1 == 0) & zero_from_4(f),
        _ => true,
    }
}

fn item_fits(kind: ItemKind, f: Frame) -> bool
    ensures { result ≡ fits_all (item_layout kind) f }
{
    match kind {
        ItemKind::Unknown => true,
        ItemKind::Constant
        | ItemKind::Override
        | ItemKind::FunctionArgument
        | ItemKind::LocalVariable
        | ItemKind::RayIntersection
        | ItemKind::RayVertexReturn => zero_from_4(f),
        ItemKind::GlobalVariable => space_fits(f.b6, f.b7)
            & ((f.b4 == 0) & ((f.b5 == 0) & (zero_from_8(f)))),
        ItemKind::Function => option_fits(f.b4, f.named())
            & ((f.b5 == 0) & ((f.b6 == 0) & ((f.b7 == 0) & (zero_from_8(f))))),
    }
}

fn row_fits(kind: RowKind, f: Frame) -> bool
    ensures { result ≡ fits_all (row_layout kind) f }
{
    match kind {
        RowKind::Unknown | RowKind::Math => true,
        RowKind::Literal => (f.b6 < 12)
            & ((f.b2 == 0)
                & ((f.b3 == 0) & ((f.b4 == 0) & ((f.b5 == 0) & ((f.b7 == 0) & (zero_from_8(f))))))),
        RowKind::Compose => (f.b6 == 0) & ((f.b7 == 0) & (zero_8_11(f))),
        RowKind::AccessIndex => (f.b4 == 0)
            & ((f.b5 == 0) & ((f.b6 == 0) & ((f.b7 == 0) & (zero_8_11(f))))),
        RowKind::Splat | RowKind::Swizzle => size_fits(f.b6)
            & ((f.b4 == 0) & ((f.b5 == 0) & ((f.b7 == 0) & (zero_from_8(f))))),
        RowKind::FunctionArgument => (f.b2 == 0)
            & ((f.b3 == 0)
                & ((f.b4 == 0) & ((f.b5 == 0) & ((f.b6 == 0) & ((f.b7 == 0) & (zero_8_11(f))))))),
        RowKind::ImageSample => (f.b6 < 2)
            & ((f.b4 == 0) & ((f.b5 == 0) & ((f.b7 == 0) & (zero_from_8(f))))),
        RowKind::ImageQuery => query_fits(f)
            & ((f.b4 == 0) & ((f.b5 == 0) & ((f.b7 == 0) & (zero_from_8(f))))),
        RowKind::Binary => (f.b6 < 18) & ((f.b7 == 0) & (zero_from_8(f))),
        RowKind::Relational => relational_fits(f)
            & ((f.b4 == 0) & ((f.b5 == 0) & ((f.b7 == 0) & (zero_from_8(f))))),
        RowKind::As => (f.b6 < 6)
            & (convert_fits(f.b7, f.b8)
                & ((f.b4 == 0)
                    & ((f.b5 == 0)
                        & ((f.b9 == 0) & ((f.b10 == 0) & ((f.b11 == 0) & (zero_from_12(f)))))))),
        RowKind::ArrayLength
        | RowKind::RayQueryVertexPositions
        | RowKind::RayQueryProceedResult
        | RowKind::RayQueryGetIntersection
        | RowKind::SubgroupBallotResult => no_field(f),
        RowKind::CooperativeLoad => cooperative_fits(f.b6)
            & (cooperative_fits(f.b7)
                & ((f.b8 < 3)
                    & ((f.b4 == 0)
                        & ((f.b5 == 0)
                            & ((f.b9 == 0)
                                & ((f.b10 == 0) & ((f.b11 == 0) & (zero_from_12(f))))))))),
        _ => zero_from_4(f),
    }
}
