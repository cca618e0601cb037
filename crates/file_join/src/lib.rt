// Two files in one (document 02, request 14): each is read and checked, then both are tested, then the lines of their
// join are written.
#![tactic(auto)]

ghost use Rattle.std.specs.Prelude.{◌≡◌, List, ℕ, ◌+◌, ◌-◌, ◌<◌, ◌≤◌, length};
ghost use Rattle.answers.specs.declared.FileError.{FileError};
ghost use Rattle.answers.specs.Limit.{max_frames};
ghost use Rattle.text.specs.declared.AnswerRoom.TheVariants.{NotLent};
ghost use Rattle.frames.specs.declared.Frame.{Frame};
ghost use Rattle.frames.specs.Bytes.{frame_count, frame_at};
ghost use Rattle.archive.specs.Starts.{starts_of};
ghost use Rattle.rule.specs.Things.{listed};
ghost use Rattle.rule_file.specs.File.{over_file, read_file, frames_after};
ghost use Rattle.rule_file.specs.Printed.{printed, printed_after};
ghost use Rattle.law_moved.specs.Frames.{moved_frame};
ghost use Rattle.law_join.specs.declared.JoinedFile.TheVariants.{Second};
ghost use Rattle.law_join.specs.Join.{bounds, join_moves, join_frames};
ghost use Rattle.law_join.specs.File.{join_text, by_tests, as_frames, join_in, join_files, second_after, joined_after};
ghost use Rattle.law_join.specs.File.{joined_said};
ghost use Rattle.file_join.specs.ForProofs.{put_all, Checked, Fitting};

use answers::MAX_FRAME_BYTES;
use archive::Starts;
use archive_access::families::find_starts;
use file_lines::put_lines;
use file_read::{first_frames, read_file};
use frames::{Frame, frame_at, frame_count, put_frame};
use frames_join::joinable::joins;
use frames_join::moved::moved_frame;
use law_join::JoinedFile;
use text_decode::most;

// Where the parts of a file begin and end: types, members, items of each kind, rows, components.
fn bounds(s: Starts) -> [usize; 13]
    ensures { result ≡ bounds s }
{
    [
        0,
        s.members,
        s.constants,
        s.overrides,
        s.globals,
        s.arguments,
        s.locals,
        s.functions,
        s.intersections,
        s.vertex_returns,
        s.rows,
        s.components,
        s.end,
    ]
}

// Puts a file's frames from `from` up to `to`, each as `moved` gives it, past so many of the other file.
fn put_part<F: Fn(Frame) -> Frame>(
    frames: &[u8],
    from: usize,
    to: usize,
    past: usize,
    joined: &mut [u8],
    moved: F,
)
    requires bounds { (from ≤ to) × ((to ≤ max_frames) × (past ≤ max_frames)) }
    requires callable { F.IsAlwaysCallable moved }
    ensures { (h : ℕ → Frame)
        → ((k : ℕ) (f : Frame) → k < to → F.post moved (frame_at frames.now k) f → f ≡ h k)
        → joined.new ≡ put_all joined.old (from + past) (listed (λ (k : ℕ). h (from + k)) (to - from)) }
{
    for k in from..to {
        put_frame(joined, k + past, moved(frame_at(frames, k)));
    }
}

// The frames of the join, part by part: in each the first's, then the second's, with their numbers moved.
fn put_frames(frames: &[u8], more: &[u8], joined: &mut [u8])
    requires { (frame_count frames.now ≤ max_frames) × ((frame_count more.now ≤ max_frames)
        × Fitting (starts_of frames.now) more.now) }
    ensures { joined.new
        ≡ put_all joined.old 0 (join_frames frames.now more.now) }
{
    let s = find_starts(frames);
    let p = bounds(s);
    let q = bounds(find_starts(more));
    for i in 0..12 {
        put_part(frames, p[i], p[i + 1], q[i], joined, |f| f);
        put_part(
            more,
            q[i],
            q[i + 1],
            p[i + 1],
            joined,
            |f| moved_frame(s, f),
        );
    }
}

// The lines of the join, all of them or none.
fn put_join(frames: &[u8], more: &[u8], joined: &mut [u8]) -> JoinedFile
    requires { (frame_count frames.now + frame_count more.now ≤ max_frames)
        × Fitting (starts_of frames.now) more.now }
    ensures outcome { result
        ≡ as_frames (frame_count frames.now + frame_count more.now)
        (printed (join_text frames.now more.now) (length joined.old)) }
    ensures joined { joined.new
        ≡ printed_after (join_text frames.now more.now) joined.old }
{
    let mut buffer = [0u8; MAX_FRAME_BYTES];
    put_frames(frames, more, &mut buffer);
    let n = frame_count(frames) + frame_count(more);
    match put_lines(first_frames(&buffer, n), joined) {
        Some(_) => JoinedFile::Frames(n as u16),
        None => JoinedFile::Short,
    }
}

// Of two accepted files: whether they may be joined, else 49; then whether the join is within the limit, else 1.
fn join_accepted(frames: &[u8], more: &[u8], limit: u32, joined: &mut [u8]) -> JoinedFile
    requires { Checked frames.now × Checked more.now }
    ensures outcome { result
        ≡ join_in limit (length joined.old) frames.now more.now }
    ensures joined { joined.new
        ≡ by_tests limit frames.now more.now joined.old joined.old
        (printed_after (join_text frames.now more.now) joined.old) }
{
    if joins(frames) & joins(more) {
        let m = most(limit);
        if m < frame_count(frames) + frame_count(more) {
            return JoinedFile::Long { limit: m as u16 };
        }
        put_join(frames, more, joined)
    } else {
        JoinedFile::NotJoinable
    }
}

// After the first file was accepted.
fn join_second(
    frames: &[u8],
    second: &[u8],
    limit: u32,
    more: &mut [u8],
    joined: &mut [u8],
) -> JoinedFile
    requires { Checked frames.now }
    ensures outcome { result
        ≡ over_file Second (join_in limit (length joined.old) frames.now) second.now
        (read_file limit second.now (length more.old) NotLent) }
    ensures more { more.new ≡ frames_after limit second.now more.old NotLent }
    ensures joined { joined.new
        ≡ over_file (λ (e : FileError). joined.old)
        (λ (gr : List ℕ). by_tests limit frames.now gr joined.old joined.old
        (printed_after (join_text frames.now gr) joined.old)) second.now
        (read_file limit second.now (length more.old) NotLent) }
{
    match read_file(second, limit, more) {
        Err(e) => JoinedFile::Second(e),
        Ok(n) => join_accepted(frames, first_frames(more, n), limit, joined),
    }
}

// Writes the lines of two files joined, the second's numbers moved past the first's, and gives how many frames they
// are. Each file is checked on its own frame buffer alone, as `read_file` leaves it: the first, then the second. Then
// either may be one that is not joined (49), the join over the limit (1), or the buffer for its lines too small (3),
// and that buffer is unchanged.
pub fn join_files(
    first: &[u8],
    second: &[u8],
    limit: u32,
    frames: &mut [u8],
    more: &mut [u8],
    joined: &mut [u8],
) -> JoinedFile
    ensures outcome { result
        ≡ join_files limit first.now second.now (length frames.old)
        (length more.old) (length joined.old) }
    ensures said { joined_said result
        ≡ joined_said (join_files limit first.now second.now (length frames.old)
        (length more.old) (length joined.old)) }
    ensures frames { frames.new
        ≡ frames_after limit first.now frames.old NotLent }
    ensures more { more.new
        ≡ second_after limit first.now second.now (length frames.old)
        more.old }
    ensures joined { joined.new
        ≡ joined_after limit first.now second.now (length frames.old)
        (length more.old) joined.old }
{
    match read_file(first, limit, frames) {
        Err(e) => JoinedFile::First(e),
        Ok(n) => join_second(first_frames(frames, n), second, limit, more, joined),
    }
}
