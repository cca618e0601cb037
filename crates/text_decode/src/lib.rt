// Reading a text: numbers 1 to 3 (document 01, "Numbers handed back"), or its frames.
#![tactic(auto)]

pub mod room;

ghost use Rattle.std.specs.Prelude.{◌≡◌, true, ◌++◌, ◌+◌, ◌*◌, ◌/◌, ◌≤◌, ◌<◌, length, drop};
ghost use Rattle.scan.specs.Lowest.{lowest};
ghost use Rattle.scan.specs.Lists.{build, sum_below};
ghost use Rattle.text.specs.Hex.{is_digit, digit_value};
ghost use Rattle.text.specs.Lines.{line_ok, line_count, frame_byte, decoded};
ghost use Rattle.text.specs.Reading.{answer_frames, too_short, most_frames, read_text, frames_read};
ghost use Rattle.answers.specs.Limit.{max_frames, max_text_bytes};

use answers::{FileError, MAX_FRAMES, Outcome};
use frames::{frame_at, put_frame};
use ir::numbers::is_compose;
use text::AnswerRoom;

// Tested without a branch, since every character of a file passes here.
fn is_digit(c: u8) -> bool
    ensures { result ≡ is_digit c }
{
    ((48 <= c) & (c < 58)) | ((97 <= c) & (c < 103))
}

// What a digit stands for: 48 to 57 are 0 to 9 past a multiple of 16, and 97 to 102 are 1 to 6 past one.
#[tactic(auto, unfolding(text::specs::Hex::digit_value))]
fn value(c: u8) -> u8
    requires { is_digit c ≡ true }
    ensures { (result ≡ digit_value c) × (result < 16) }
{
    c % 16 + 9 * (c / 64)
}

// Whether line k is whole. The whole line is tested, with no way out before its end.
#[tactic(auto, unfolding(scan::specs::Lowest::all_below, text::specs::Lines::line_ok))]
fn line_ok(text: &[u8], k: usize) -> bool
    requires { 33 * k ≤ length text.now }
    ensures { result ≡ line_ok text.now k }
{
    if text.len() < 33 * k + 33 {
        return false;
    }
    let mut ok = true;
    for j in 0..32 {
        ok = ok & is_digit(text[33 * k + j]);
    }
    ok & (text[33 * k + 32] == 10)
}

// How many lines there are, a last one that is cut short counted too.
fn line_count(text: &[u8]) -> usize
    ensures { result ≡ line_count text.now }
{
    (text.len() + 32) / 33
}

// The lowest torn line.
fn first_torn(text: &[u8]) -> Option<usize>
    ensures { result ≡ lowest (line_ok text.now) (line_count text.now) }
{
    let n = line_count(text);
    (0..n).find(|k| !line_ok(text, *k))
}

// Byte j of the frame that line k stands for.
fn frame_byte(text: &[u8], k: usize, j: usize) -> u8
    requires { (line_ok text.now k ≡ true) × (33 * k + 33 ≤ length text.now) × (j < 16) }
    ensures { result ≡ frame_byte text.now k j }
{
    16 * value(text[33 * k + 2 * j]) + value(text[33 * k + (2 * j + 1)])
}

// How many answer frames line k asks for: a row one, a compose two, any other none.
#[tactic(auto, unfolding(text::specs::Reading::answer_frames))]
fn line_answers(text: &[u8], k: usize) -> usize
    requires { (line_ok text.now k ≡ true) × (33 * k + 33 ≤ length text.now) }
    ensures { (result ≡ answer_frames text.now k) × (result ≤ 2) }
{
    if frame_byte(text, k, 0) == 4 {
        if is_compose(frame_byte(text, k, 1)) {
            2
        } else {
            1
        }
    } else {
        0
    }
}

// How many answer frames the first n lines ask for.
fn answer_frames(text: &[u8], n: usize) -> usize
    requires { (lowest (line_ok text.now) n ≡ None) × (n ≤ max_frames) }
    ensures { (result ≡ sum_below (answer_frames text.now) n) × (result ≤ 2 * n) }
{
    let mut sum = 0;
    for k in 0..n {
        sum += line_answers(text, k);
    }
    sum
}

// Whether a lent buffer is too small for the text. The frame buffer has f bytes.
#[tactic(auto, unfolding(text::specs::Reading::too_short))]
fn too_short(text: &[u8], f: usize, room: AnswerRoom) -> bool
    requires { (lowest (line_ok text.now) (line_count text.now) ≡ None)
        × (length text.now ≤ max_text_bytes) }
    ensures { result ≡ too_short text.now f room }
{
    let n = line_count(text);
    if f < 16 * n {
        return true;
    }
    match room {
        AnswerRoom::NotLent => false,
        AnswerRoom::Lent(a) => a < 16 * answer_frames(text, n),
    }
}

// Writes the bytes of the frame that line k stands for.
fn decode_line(text: &[u8], k: usize, line: &mut [u8])
    requires { (line_ok text.now k ≡ true) × (33 * k + 33 ≤ length text.now) × (length line.old ≡ 16) }
    ensures { line.new ≡ build (frame_byte text.now k) 16 }
{
    for j in 0..16 {
        line[j] = frame_byte(text, k, j);
    }
}

// Writes the frames of the first n lines. A line's bytes are put at once, which compiles to far fewer instructions than
// to put each as it is made.
fn decode(text: &[u8], frames: &mut [u8], n: usize)
    requires { (lowest (line_ok text.now) n ≡ None) × (16 * n ≤ length frames.old) }
    ensures { frames.new ≡ decoded text.now n ++ drop (16 * n) frames.old }
{
    let mut line = [0u8; 16];
    for k in 0..n {
        decode_line(text, k, &mut line);
        put_frame(frames, k, frame_at(&line, 0));
    }
}

// The limit of frames that holds.
#[tactic(auto, unfolding(text::specs::Reading::most_frames))]
pub fn most(limit: u32) -> usize
    ensures { (result ≡ most_frames limit) × (result ≤ max_frames) }
{
    if limit == 0 {
        return MAX_FRAMES;
    }
    MAX_FRAMES.min(limit as usize)
}

// Checks 1 to 3, and where they pass the frames, at the front of the frame buffer. Numbers 1 to 3 change no buffer.
#[tactic(auto, unfolding(text::specs::Reading::read_text))]
pub fn read_text(text: &[u8], limit: u32, frames: &mut [u8], room: AnswerRoom) -> Outcome
    ensures outcome { result ≡ read_text limit text.now (length frames.old) room }
    ensures frames { frames.new ≡ frames_read result text.now frames.old }
{
    let m = most(limit);
    if 33 * m < text.len() {
        return Err(FileError::Long { limit: m as u16 });
    }
    let torn = first_torn(text);
    match torn {
        Some(k) => Err(FileError::Torn { line: k as u16 }),
        None => {
            if too_short(text, frames.len(), room) {
                return Err(FileError::Short);
            }
            let n = line_count(text);
            decode(text, frames, n);
            Ok(n)
        }
    }
}
