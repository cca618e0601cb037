// The texel of a density. It asks nothing of a file, and its out-slice gets two bytes and no frame.
ghost use Rattle.std.specs.Prelude.{◌≡◌};
ghost use Rattle.texel.specs.Texel.{texel_of, texel_said};
ghost use Rattle.texel.specs.Exported.{texel_number, texel_put, by_texel_room};

// The texel as two bytes, low byte first.
#[unsafe(no_mangle)]
pub extern "C" fn gelmusko_texel(density: u32, out: &mut [u8]) -> u32
    ensures outcome { result
        ≡ by_texel_room out.old 3 (texel_number (texel_said (texel_of density))) }
    ensures out { out.new
        ≡ by_texel_room out.old out.old
        (texel_put out.old (texel_said (texel_of density))) }
{
    gelmusko::texels::gelmusko_texel(density, out)
}
