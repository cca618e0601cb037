// Prints the texel of every density, 0 to 10,000, and of some over that: a line each, with the density and its texel,
// or the number that it is refused with. tools/texels.py writes what must be printed, by decimal arithmetic.
#![tactic(auto)]

use std::io;
use texel::texel_of;

fn print_texel(rt: &impl Print, density: u32) -> io::Result<()> {
    let given = texel_of(density);
    match given {
        Some(t) => println!(rt; "{density} {t}"),
        None => println!(rt; "{density} refused 40"),
    }
}

fn main(rt: HostRuntime) -> io::Result<()> {
    for density in 0..=10001 {
        print_texel(&rt, density)?;
    }
    print_texel(&rt, 65536)?;
    print_texel(&rt, 4294967295)
}
