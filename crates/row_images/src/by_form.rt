// ImageSample, ImageLoad and ImageQuery, by the form of the image.
ghost use Rattle.std.specs.Prelude.{◌≡◌};
ghost use Rattle.rule.specs.Answers.{value, given, told};
ghost use Rattle.rule_rows.specs.Images.{gathered_scalar, gathered_of, sampled_of, size_of, image_size_of};
ghost use Rattle.rule_rows.specs.Answered.{to_result};
ghost use Rattle.rule_rows.specs.ForProofs.{sampled_in};

use answers::Answer;
use ir::{ImageClass, ImageDimension, RowNumber, Scalar, TypeInner, VectorSize, Width};
use row_operands::values::{invalid_image, scalar_type, vector_type};

// Of the sampled kind, otherwise Float.
fn gathered_scalar(class: ImageClass) -> Scalar
    ensures { result ≡ gathered_scalar class }
{
    match class {
        ImageClass::Sampled { kind, multi: _ } => Scalar {
            kind,
            width: Width::Four,
        },
        ImageClass::Depth { multi: _ } => Scalar::F32,
        ImageClass::External => Scalar::F32,
        ImageClass::Storage {
            format: _,
            access: _,
        } => Scalar::F32,
    }
}

pub fn gathered_of(image: RowNumber, t: TypeInner) -> Answer
    ensures { to_result result ≡ told (gathered_of image t) }
{
    match t {
        TypeInner::Image {
            dim: _,
            arrayed: _,
            class,
        } => vector_type(VectorSize::Quad, gathered_scalar(class)),
        _ => invalid_image(image),
    }
}

// By the image's class.
fn sampled_class(class: ImageClass) -> Answer
    ensures { to_result result ≡ told (given (value (sampled_of class))) }
{
    match class {
        ImageClass::Depth { multi: _ } => scalar_type(Scalar::F32),
        ImageClass::Sampled { kind, multi: _ } => vector_type(
            VectorSize::Quad,
            Scalar {
                kind,
                width: Width::Four,
            },
        ),
        ImageClass::Storage { format, access: _ } => vector_type(VectorSize::Quad, format.scalar()),
        ImageClass::External => vector_type(VectorSize::Quad, Scalar::F32),
    }
}

pub fn sampled_from(image: RowNumber, t: TypeInner) -> Answer
    ensures { to_result result ≡ told (sampled_in image t) }
{
    match t {
        TypeInner::Image {
            dim: _,
            arrayed: _,
            class,
        } => sampled_class(class),
        _ => invalid_image(image),
    }
}

// An image's size.
fn size_of(dim: ImageDimension) -> Answer
    ensures { to_result result ≡ told (given (value (size_of dim))) }
{
    match dim {
        ImageDimension::D1 => scalar_type(Scalar::U32),
        ImageDimension::D2 => vector_type(VectorSize::Bi, Scalar::U32),
        ImageDimension::Cube => vector_type(VectorSize::Bi, Scalar::U32),
        ImageDimension::D3 => vector_type(VectorSize::Tri, Scalar::U32),
    }
}

pub fn image_size_of(image: RowNumber, t: TypeInner) -> Answer
    ensures { to_result result ≡ told (image_size_of image t) }
{
    match t {
        TypeInner::Image {
            dim,
            arrayed: _,
            class: _,
        } => size_of(dim),
        _ => invalid_image(image),
    }
}
