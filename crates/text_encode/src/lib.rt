// Writing frames as lines.
#![tactic(auto)]

ghost use Rattle.std.specs.Prelude.{◌≡◌, ◌++◌, ◌+◌, ◌*◌, ◌/◌, ◌≤◌, ◌<◌, min, length, drop};
ghost use Rattle.text.specs.Hex.{digit_of};
ghost use Rattle.text.specs.Lines.{text_of};

// The digit that stands for v.
#[tactic(auto, unfolding(text::specs::Hex::digit_of))]
fn digit(v: u8) -> u8
    requires { v < 16 }
    ensures { result ≡ digit_of v }
{
    if v < 10 { 48 + v } else { 87 + v }
}

// Writes the lines of the first n frames.
fn encode(frames: &[u8], text: &mut [u8], n: usize)
    requires { (16 * n ≤ length frames.now) × (33 * n ≤ length text.old) }
    ensures { text.new ≡ text_of frames.now n ++ drop (33 * n) text.old }
{
    'lines: for k in 0..n {
        'digits: for j in 0..16 {
            let b = frames[16 * k + j];
            text[33 * k + 2 * j] = digit(b / 16);
            text[33 * k + 2 * j + 1] = digit(b % 16);
        }
        text[33 * k + 32] = 10;
    }
}

// Writes the lines of as many whole frames as there are and as there is room for, and gives their number.
pub fn write_text(frames: &[u8], text: &mut [u8]) -> usize
    ensures outcome { result ≡ min (length frames.now / 16) (length text.old / 33) }
    ensures text { text.new ≡ text_of frames.now result ++ drop (33 * result) text.old }
{
    let n = (frames.len() / 16).min(text.len() / 33);
    encode(frames, text, n);
    n
}
