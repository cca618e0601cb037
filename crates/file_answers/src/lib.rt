// The answers of all rows and the verdicts on all composes, from the frames of a file alone: an answer for each row, in
// order, and after a compose its verdict. An earlier answer is found in the answer buffer by a table of places.
#![tactic(auto)]

ghost use Rattle.std.specs.Prelude.{◌≡◌, ◌++◌, cond, ◌+◌, ◌≤◌, length, drop};
ghost use Rattle.answers.specs.Limit.{max_frames};
ghost use Rattle.archive.specs.Starts.{starts_of, row_count};
ghost use Rattle.frames.specs.Bytes.{frame_count, put_frame};
ghost use Rattle.rule.specs.Answers.{row_frame};
ghost use Rattle.rule.specs.Things.{see};
ghost use Rattle.rule_rows.specs.Typed.{typed};
ghost use Rattle.rule_rows.specs.OverBuffer.{ruled};
ghost use Rattle.rule_compose.specs.Judged.{to_judged};
ghost use Rattle.row_operands.specs.Context.{judges};
ghost use Rattle.rule_compose.specs.ForProofs.{compose_rule};
ghost use Rattle.rule_answers.specs.Outputs.{outputs};
ghost use Rattle.rule_answers.specs.ForProofs.{places_of, Held};
ghost use Rattle.rule_file.specs.Typing.{answers_written};
ghost use Rattle.rule_file.specs.ForProofs.{Room, Turn, Written};
ghost use Rattle.file_answers.specs.Rows.{has_room};
ghost use Rattle.file_answers.specs.ForProofs.{hands_back, all_hand_back};

use answers::{MAX_FRAMES, Verdict};
use archive::Starts;
use archive_access::families::{find_starts, row_count};
use frames::{Frame, frame_at, frame_count, put_frame};
use frames_answers::write::{answer_frame, verdict_frame};
use ir::RowNumber;
use ir::numbers::is_compose;
use row_operands::ResolveContext;
use row_typifier::resolve::type_row;
use rule_rows::Pass;
use verdict_compose::compose::judge;

// Writes the answer of row `here`, by the rules of a pass and the answers so far, as frame `at` of the answer buffer.
fn put_row(
    pass: Pass,
    frames: &[u8],
    s: Starts,
    answers: &mut [u8],
    places: &[u16],
    here: RowNumber,
    at: usize,
)
    ensures answers { answers.new
        ≡ put_frame answers.old at (row_frame
        (ruled frames.now s answers.old places.now (typed pass here))) }
    ensures held { Held
        (ruled frames.now s answers.old places.now (typed pass here)) }
{
    let a = type_row(
        pass,
        &ResolveContext {
            frames,
            starts: s,
            answers,
            places,
        },
        here,
    );
    put_frame(answers, at, answer_frame(a));
}

// The verdict on the compose row whose frame is f, over the answers so far.
pub fn judge_row(ctx: &ResolveContext<'_>, f: Frame) -> Verdict
    ensures { to_judged result ≡ judges ctx.now (compose_rule ctx.now.frames.now ctx.now.starts f) }
{
    let ty = f.ty();
    let first = f.first_component();
    let count = f.count();
    judge(ctx, ty, first, count)
}

// Writes a row's answer as frame `at`, and after it the verdict if the row is a compose; gives the frame after them.
fn answer_row(
    pass: Pass,
    frames: &[u8],
    s: Starts,
    answers: &mut [u8],
    places: &[u16],
    row: RowNumber,
    at: usize,
) -> usize
    requires { Turn pass frames.now answers.old places.now s row at }
    ensures { Written pass frames.now answers.old answers.new (row.0 + 1) result }
{
    put_row(pass, frames, s, answers, places, row, at);
    let after = at + 1;
    let f = frame_at(frames, s.rows + (row.0 as usize));
    if is_compose(f.b1) {
        let e = 16 * at;
        let v = judge_row(
            &ResolveContext {
                frames,
                starts: s,
                answers: &answers[..e],
                places,
            },
            f,
        );
        put_frame(answers, after, verdict_frame(row, v));
        after + 1
    } else {
        after
    }
}

// Every row in order; gives how many frames are written. `places` takes at which of them each row's answer stands.
fn fill(pass: Pass, frames: &[u8], s: Starts, answers: &mut [u8], places: &mut [u16]) -> usize
    requires room { Room pass frames.now (length answers.old) }
    requires starts { s ≡ starts_of frames.now }
    requires table { row_count s ≤ length places.old }
    ensures count { result ≡ length (outputs pass (see frames.now) (row_count s)) }
    ensures answers { answers.new ≡ answers_written pass answers.old frames.now }
    ensures table { places.new
        ≡ places_of pass frames.now (row_count s) ++ drop (row_count s) places.old }
{
    let n = row_count(s);
    let mut at = 0;
    for m in 0..n {
        let next = answer_row(
            pass,
            frames,
            s,
            answers,
            &places[..m],
            RowNumber(m as u16),
            at,
        );
        places[m] = at as u16;
        at = next;
    }
    at
}

// How many frames a row hands back, by its frame: a compose two.
fn hands_back(f: Frame) -> usize
    ensures { result ≡ hands_back f }
{
    if is_compose(f.b1) { 2 } else { 1 }
}

// How many all rows hand back.
#[tactic(auto, unfolding(scan::specs::Lists::sum_below))]
fn all_hand_back(frames: &[u8], s: Starts) -> usize
    requires few { frame_count frames.now ≤ max_frames }
    requires starts { s ≡ starts_of frames.now }
    ensures { result ≡ all_hand_back frames.now (row_count s) }
{
    let n = row_count(s);
    let first = s.rows;
    let mut k = 0;
    for m in 0..n {
        k += hands_back(frame_at(frames, first + m));
    }
    k
}

// Answers every row of a file, whose frames these are, by the rules of a pass, and judges every compose over those
// answers: they stand at the front of the answer buffer then, and its bytes past them stay. `places` takes at which of
// these frames each row's answer stands. Gives how many frames are written: none, with both buffers as they were, where
// one is too small, or there are more than 1,024 frames. The frames may be any, not an accepted file's alone.
pub fn answer_rows(pass: Pass, frames: &[u8], answers: &mut [u8], places: &mut [u16]) -> usize
    ensures count { result
        ≡ cond (has_room pass frames.now (length answers.old) (length places.old))
        (length (outputs pass (see frames.now) (row_count (starts_of frames.now)))) 0 }
    ensures answers { answers.new
        ≡ cond (has_room pass frames.now (length answers.old) (length places.old))
        (answers_written pass answers.old frames.now) answers.old }
    ensures places { places.new
        ≡ cond (has_room pass frames.now (length answers.old) (length places.old))
        (places_of pass frames.now (row_count (starts_of frames.now))
        ++ drop (row_count (starts_of frames.now)) places.old) places.old }
{
    if MAX_FRAMES < frame_count(frames) {
        return 0;
    }
    let s = find_starts(frames);
    if places.len() < row_count(s) {
        return 0;
    }
    if answers.len() / 16 < all_hand_back(frames, s) {
        return 0;
    }
    fill(pass, frames, s, answers, places)
}
