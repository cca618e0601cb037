// A frame: sixteen bytes, one layout for each kind (specs/Layout.antt), used by what reads, checks and writes.

#![tactic(auto)]

pub mod read;

ghost use Rattle.std.specs.Prelude.{◌≡◌, ℕ, ◌+◌, ◌*◌, ◌≤◌, ◌++◌, length, take, drop};
ghost use Rattle.frames.specs.Bytes.{bytes_of, frame_count, frame_from, frame_at, zero_frame, put_frame};

#[derive(Clone, Copy, PartialEq, Eq)]
pub struct Frame {
    pub b0: u8,
    pub b1: u8,
    pub b2: u8,
    pub b3: u8,
    pub b4: u8,
    pub b5: u8,
    pub b6: u8,
    pub b7: u8,
    pub b8: u8,
    pub b9: u8,
    pub b10: u8,
    pub b11: u8,
    pub b12: u8,
    pub b13: u8,
    pub b14: u8,
    pub b15: u8,
}

// How many whole frames a buffer has.
pub fn frame_count(s: &[u8]) -> usize
    ensures { result ≡ frame_count s.now }
{
    s.len() / 16
}

// The sixteen bytes from a place on.
fn frame_from(s: &[u8], at: usize) -> Frame
    requires { at + 16 ≤ length s.now }
    ensures { result ≡ frame_from s.now at }
{
    Frame {
        b0: s[at],
        b1: s[at + 1],
        b2: s[at + 2],
        b3: s[at + 3],
        b4: s[at + 4],
        b5: s[at + 5],
        b6: s[at + 6],
        b7: s[at + 7],
        b8: s[at + 8],
        b9: s[at + 9],
        b10: s[at + 10],
        b11: s[at + 11],
        b12: s[at + 12],
        b13: s[at + 13],
        b14: s[at + 14],
        b15: s[at + 15],
    }
}

// Zeros, which are of no family: what stands where there is no frame.
pub fn no_frame() -> Frame
    ensures { result ≡ zero_frame }
{
    Frame {
        b0: 0,
        b1: 0,
        b2: 0,
        b3: 0,
        b4: 0,
        b5: 0,
        b6: 0,
        b7: 0,
        b8: 0,
        b9: 0,
        b10: 0,
        b11: 0,
        b12: 0,
        b13: 0,
        b14: 0,
        b15: 0,
    }
}

// Frame k of a buffer; zeros where it has no such frame.
#[tactic(auto, unfolding(crate::specs::Bytes::frame_at))]
pub fn frame_at(s: &[u8], k: usize) -> Frame
    ensures { result ≡ frame_at s.now k }
{
    if k < s.len() / 16 {
        frame_from(s, 16 * k)
    } else {
        no_frame()
    }
}

// Writes sixteen bytes from a place on.
fn put_from(s: &mut [u8], at: usize, f: Frame)
    requires { at + 16 ≤ length s.old }
    ensures { s.new ≡ take at s.old ++ bytes_of f ++ drop (at + 16) s.old }
{
    s[at] = f.b0;
    s[at + 1] = f.b1;
    s[at + 2] = f.b2;
    s[at + 3] = f.b3;
    s[at + 4] = f.b4;
    s[at + 5] = f.b5;
    s[at + 6] = f.b6;
    s[at + 7] = f.b7;
    s[at + 8] = f.b8;
    s[at + 9] = f.b9;
    s[at + 10] = f.b10;
    s[at + 11] = f.b11;
    s[at + 12] = f.b12;
    s[at + 13] = f.b13;
    s[at + 14] = f.b14;
    s[at + 15] = f.b15;
}

// Writes a frame as frame k of a buffer; a buffer that has no such frame stays as it was.
#[tactic(auto, unfolding(crate::specs::Bytes::put_frame))]
pub fn put_frame(s: &mut [u8], k: usize, f: Frame)
    ensures { s.new ≡ put_frame s.old k f }
{
    if k < s.len() / 16 {
        put_from(s, 16 * k, f);
    }
}
