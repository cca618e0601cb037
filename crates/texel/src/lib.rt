// The texel of a density (document 02, requests 1 and 11): hundredths of a per cent, 0 to 10,000, as an R16Unorm texel.
#![tactic(auto)]

ghost use Rattle.std.specs.Prelude.{◌≡◌, cond, ◌*◌, ◌≤◌, leb};
ghost use Rattle.answers.specs.Numbers.{at, asked, instead};
ghost use Rattle.texel.specs.Texel.{tied, rounded, texel_of, texel_said};
ghost use Rattle.texel.specs.Exported.{texel_number, texel_put, by_texel_room};

// Which of q and q + 1 is given where both are equally near: the even one.
#[tactic(auto, unfolding(crate::specs::Texel::tied))]
fn tied_at(q: u32) -> u32
    requires { q ≤ 65535 }
    ensures { result ≡ tied q }
{
    q + q % 2
}

// A 10,000th of n, as the nearest whole number.
fn nearest(n: u32) -> u32
    requires { n ≤ 655350000 }
    ensures { result ≡ rounded n }
{
    let q = n / 10000;
    let twice = n % 10000 * 2;
    let below = twice < 10000;
    if below {
        q
    } else if 10000 < twice {
        q + 1
    } else {
        tied_at(q)
    }
}

// The texel of a density.
pub fn texel_of(density: u32) -> Option<u16>
    ensures outcome { result ≡ texel_of density }
    ensures said { texel_said result
        ≡ cond (leb density 10000) (asked (rounded (density * 65535))) (instead (at 40 0)) }
{
    let within = density <= 10000;
    if within {
        Some(nearest(density * 65535) as u16)
    } else {
        None
    }
}

// The texel as two bytes at the front of a slice, low byte first, and 0; or the number, with the slice as it was.
pub fn put_texel(density: u32, out: &mut [u8]) -> u32
    ensures outcome { result
        ≡ by_texel_room out.old 3 (texel_number (texel_said (texel_of density))) }
    ensures out { out.new
        ≡ by_texel_room out.old out.old
        (texel_put out.old (texel_said (texel_of density))) }
{
    if out.len() < 2 {
        return 3;
    }
    let given = texel_of(density);
    match given {
        Some(t) => {
            out[0] = (t % 256) as u8;
            out[1] = (t / 256) as u8;
            0
        }
        None => 40,
    }
}
