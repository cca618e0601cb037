// ImageSample, ImageLoad and ImageQuery.
ghost use Rattle.std.specs.Prelude.{◌≡◌};
ghost use Rattle.row_operands.specs.Context.{rules};
ghost use Rattle.rule_rows.specs.Steps.{by_type};
ghost use Rattle.rule_rows.specs.Images.{gathered, sampled, image_sample, image_size_of, image_query};
ghost use Rattle.rule_rows.specs.Answered.{to_result};

use super::by_form::{gathered_of, image_size_of, sampled_from};
use answers::Answer;
use ir::{ImageQuery, RowNumber, Scalar};
use row_operands::ResolveContext;
use row_operands::past::look_into;
use row_operands::values::scalar_type;

fn gathered(ctx: &ResolveContext<'_>, here: RowNumber, image: RowNumber) -> Answer
    ensures { to_result result
        ≡ rules ctx.now (gathered here image) }
{
    let inner = look_into(ctx, here, image)?;
    gathered_of(image, inner)
}

// A sample without gather, and a load.
pub fn sampled(ctx: &ResolveContext<'_>, here: RowNumber, image: RowNumber) -> Answer
    ensures { to_result result
        ≡ rules ctx.now (sampled here image) }
{
    let inner = look_into(ctx, here, image)?;
    sampled_from(image, inner)
}

pub fn image_sample(
    ctx: &ResolveContext<'_>,
    here: RowNumber,
    image: RowNumber,
    gather: bool,
) -> Answer
    ensures { to_result result
        ≡ rules ctx.now (image_sample here image gather) }
{
    if gather {
        gathered(ctx, here, image)
    } else {
        sampled(ctx, here, image)
    }
}

fn image_size(ctx: &ResolveContext<'_>, here: RowNumber, image: RowNumber) -> Answer
    ensures { to_result result
        ≡ rules ctx.now
        (by_type here image (image_size_of image)) }
{
    let inner = look_into(ctx, here, image)?;
    image_size_of(image, inner)
}

// A size reads the image; the other queries read nothing.
pub fn image_query(
    ctx: &ResolveContext<'_>,
    here: RowNumber,
    image: RowNumber,
    query: ImageQuery,
) -> Answer
    ensures { to_result result
        ≡ rules ctx.now (image_query here image query) }
{
    match query {
        ImageQuery::Size => image_size(ctx, here, image),
        ImageQuery::NumLevels | ImageQuery::NumLayers | ImageQuery::NumSamples => scalar_type(
            Scalar::U32,
        ),
    }
}
