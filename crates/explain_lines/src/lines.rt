// What the lines of answers, verdicts and faults say (specs/Answers.antt), and of types' sizes (specs/Sizes.antt), and
// their bytes.
ghost use Rattle.std.specs.Prelude.{◌≡◌, ◌++◌, ◌+◌, ◌≤◌, length, take, drop};
ghost use Rattle.explain_lines.specs.ForProofs.{filled};
ghost use Rattle.rule_explain.specs.Answers.{manner, reason, refusal, judged_words, said, shown, ending, line_of};
ghost use Rattle.rule_explain.specs.Answers.{fault_words, fault_line};
ghost use Rattle.rule_explain.specs.Lines.{spelled};
ghost use Rattle.explain_words.specs.ForProofs.{written};
ghost use Rattle.rule_explain.specs.Sizes.{size_words, size_line_of, span_of};
ghost use Rattle.explain_lines.specs.LinesForProofs.{made_in, made_long};

use super::types::{pick, whole};
use explain_words::{num, put_pieces, table};
use frames::{Frame, frame_at};
use ir::{RowNumber, TypeNumber};

#[tactic(auto, unfolding(rule_explain::specs::Answers::manner))]
fn manner(flag: u8) -> u64
    ensures { result ≡ manner flag }
{
    if flag == 1 {
        return table::CONSTANT;
    }
    table::COMPUTED
}

#[tactic(auto, unfolding(rule_explain::specs::Answers::reason))]
fn reason(n: u8) -> u64
    ensures { result ≡ reason n }
{
    if n == 41 {
        return table::MISMATCH;
    }
    pick(table::REASON, 10, 11, n)
}

#[tactic(auto, unfolding(rule_explain::specs::Answers::refusal, crate::specs::ForProofs::filled))]
fn refusal(f: Frame) -> [u64; 16]
    ensures { result ≡ filled 16 (refusal f) }
{
    let n = f.b1;
    let place = num(f.named() as u32);
    if n == 22 {
        return [
            table::NEWER,
            place,
            0,
            0,
            0,
            0,
            0,
            0,
            0,
            0,
            0,
            0,
            0,
            0,
            0,
            0,
        ];
    }
    let number = num(n as u32);
    let why = reason(n);
    let index = num(f.index());
    if n == 10 {
        return [
            table::REFUSED,
            number,
            why,
            place,
            table::INDEX,
            index,
            0,
            0,
            0,
            0,
            0,
            0,
            0,
            0,
            0,
            0,
        ];
    }
    if n < 13 {
        let by = manner(f.b8);
        return [
            table::REFUSED,
            number,
            why,
            place,
            by,
            0,
            0,
            0,
            0,
            0,
            0,
            0,
            0,
            0,
            0,
            0,
        ];
    }
    if n < 17 {
        return [
            table::REFUSED,
            number,
            why,
            place,
            0,
            0,
            0,
            0,
            0,
            0,
            0,
            0,
            0,
            0,
            0,
            0,
        ];
    }
    if n == 19 {
        return [
            table::REFUSED,
            number,
            why,
            index,
            0,
            0,
            0,
            0,
            0,
            0,
            0,
            0,
            0,
            0,
            0,
            0,
        ];
    }
    [
        table::REFUSED,
        number,
        why,
        0,
        0,
        0,
        0,
        0,
        0,
        0,
        0,
        0,
        0,
        0,
        0,
        0,
    ]
}

#[tactic(auto, unfolding(rule_explain::specs::Answers::judged_words, crate::specs::ForProofs::filled))]
fn judged(f: Frame) -> [u64; 16]
    ensures { result ≡ filled 16 (judged_words f) }
{
    let n = f.b1;
    if n == 0 {
        return [
            table::VERDICT,
            table::PASSES,
            0,
            0,
            0,
            0,
            0,
            0,
            0,
            0,
            0,
            0,
            0,
            0,
            0,
            0,
        ];
    }
    let i = f.index();
    let part = num(i);
    if n == 22 {
        if i == 4294967295 {
            return [
                table::VERDICT,
                table::NEWER_WHOLE,
                0,
                0,
                0,
                0,
                0,
                0,
                0,
                0,
                0,
                0,
                0,
                0,
                0,
                0,
            ];
        }
        return [
            table::VERDICT,
            table::NEWER_PART,
            part,
            0,
            0,
            0,
            0,
            0,
            0,
            0,
            0,
            0,
            0,
            0,
            0,
            0,
        ];
    }
    let number = num(n as u32);
    let reason = pick(table::JUDGED, 30, 4, n);
    if n == 31 {
        let given = num(f.third());
        return [
            table::VERDICT,
            number,
            reason,
            part,
            table::GIVEN,
            given,
            0,
            0,
            0,
            0,
            0,
            0,
            0,
            0,
            0,
            0,
        ];
    }
    if 31 < n {
        return [
            table::VERDICT,
            number,
            reason,
            part,
            0,
            0,
            0,
            0,
            0,
            0,
            0,
            0,
            0,
            0,
            0,
            0,
        ];
    }
    [
        table::VERDICT,
        number,
        reason,
        0,
        0,
        0,
        0,
        0,
        0,
        0,
        0,
        0,
        0,
        0,
        0,
        0,
    ]
}

#[tactic(auto, unfolding(rule_explain::specs::Answers::said))]
fn said(frames: &[u8], f: Frame) -> [u64; 16]
    ensures { result ≡ filled 16 (said frames.now f) }
{
    let k = f.b0;
    if k == 8 {
        let n = TypeNumber(f.named());
        return whole(frames, frame_at(frames, n.0 as usize));
    }
    if k == 9 {
        return whole(frames, f);
    }
    if k == 11 {
        return judged(f);
    }
    refusal(f)
}

// The row of a line: a verdict names it.
#[tactic(auto, unfolding(rule_explain::specs::Answers::shown))]
fn shown(row: RowNumber, f: Frame) -> RowNumber
    ensures { result ≡ shown row f }
{
    if f.b0 == 11 {
        return RowNumber(f.named());
    }
    row
}

#[tactic(auto, unfolding(rule_explain::specs::Answers::ending, crate::specs::ForProofs::filled))]
fn ending(f: Frame) -> [u64; 3]
    ensures { result ≡ filled 3 (ending f) }
{
    if f.b0 == 8 {
        let n = TypeNumber(f.named());
        return [table::NUMBERED, num(n.0 as u32), table::ENDS];
    }
    [table::FEED, 0, 0]
}

// Writes three runs of pieces one after the other at the front of a buffer, and gives their length.
fn put_runs(head: &[u64], body: &[u64], end: &[u64], line: &mut [u8]) -> usize
    requires room { 1296 ≤ length line.old }
    requires few { length head.now + length body.now + length end.now ≤ 27 }
    ensures long { result
        ≡ length (spelled (head.now ++ body.now ++ end.now)) }
    ensures small { result ≤ 1296 }
    ensures line { line.new
        ≡ written line.old 0 (spelled (head.now ++ body.now ++ end.now)) }
{
    let a = put_pieces(head, line, 0);
    let b = put_pieces(body, line, a);
    put_pieces(end, line, b)
}

// Writes the line of an answer or verdict at the front of a buffer, and gives its length. A buffer of fewer than 1,296
// bytes, which are enough for any line, stays as it was.
#[tactic(auto, unfolding(crate::specs::LinesForProofs::made_in, crate::specs::LinesForProofs::made_long))]
pub fn put_line(frames: &[u8], row: RowNumber, f: Frame, line: &mut [u8]) -> usize
    ensures { (result ≡ made_long line.old (line_of frames.now row f))
        × (result ≤ 1296)
        × (line.new ≡ made_in line.old (line_of frames.now row f)) }
{
    if line.len() < 1296 {
        return 0;
    }
    let r = shown(row, f);
    let head = [table::ROW, num(r.0 as u32), table::GAP];
    let body = said(frames, f);
    let end = ending(f);
    put_runs(&head, &body, &end, line)
}

#[tactic(auto, unfolding(rule_explain::specs::Answers::fault_words, crate::specs::ForProofs::filled))]
fn fault_words(f: Frame) -> [u64; 8]
    ensures { result ≡ filled 8 (fault_words f) }
{
    let n = f.b1;
    let number = num(n as u32);
    let fault = pick(table::FAULT, 1, 6, n);
    if n == 1 {
        let limit = f.named() as u32;
        let frames = num(limit);
        let bytes = num(33 * limit);
        return [
            table::NUMBER,
            number,
            fault,
            frames,
            table::FRAMES_OF,
            bytes,
            table::BYTES,
            table::FEED,
        ];
    }
    if n == 3 {
        return [table::NUMBER, number, fault, table::FEED, 0, 0, 0, 0];
    }
    let place = (f.named() as u32) + 1;
    let line = num(place);
    [
        table::LINE,
        line,
        table::COLON,
        table::NUMBER,
        number,
        fault,
        table::FEED,
        0,
    ]
}

// The same of the line of a file that is not accepted.
#[tactic(auto, unfolding(crate::specs::LinesForProofs::made_in, crate::specs::LinesForProofs::made_long))]
pub fn put_fault(f: Frame, line: &mut [u8]) -> usize
    ensures { (result ≡ made_long line.old (fault_line f))
        × (result ≤ 1296)
        × (line.new ≡ made_in line.old (fault_line f)) }
{
    if line.len() < 1296 {
        return 0;
    }
    let words = fault_words(f);
    put_pieces(&words, line, 0)
}

#[tactic(auto, unfolding(rule_explain::specs::Sizes::size_words, crate::specs::ForProofs::filled))]
fn size_words(f: Frame) -> [u64; 8]
    ensures { result ≡ filled 8 (size_words f) }
{
    let align = num(f.b4 as u32);
    let size = num(f.third());
    if f.b0 == 12 {
        return [
            table::GAP,
            table::ALIGN,
            align,
            table::SIZE,
            size,
            table::FEED,
            0,
            0,
        ];
    }
    if f.b0 == 13 {
        let greatest = num(f.last());
        return [
            table::GAP,
            table::ALIGN,
            align,
            table::SIZE,
            size,
            table::TO,
            greatest,
            table::FEED,
        ];
    }
    let number = num(f.b1 as u32);
    let fault = pick(table::UNMEASURED, 42, 3, f.b1);
    let place = num(f.named() as u32);
    [
        table::GAP,
        table::REFUSED,
        number,
        fault,
        place,
        table::FEED,
        0,
        0,
    ]
}

// Writes the line of type n, whose size the frame says, at the front of a buffer, and gives its length. A buffer of
// fewer than 1,296 bytes, which are enough for any line, stays as it was.
#[tactic(auto, unfolding(crate::specs::LinesForProofs::made_in, crate::specs::LinesForProofs::made_long))]
pub fn put_size(frames: &[u8], n: TypeNumber, f: Frame, line: &mut [u8]) -> usize
    ensures { (result ≡ made_long line.old (size_line_of frames.now n f))
        × (result ≤ 1296)
        × (line.new ≡ made_in line.old (size_line_of frames.now n f)) }
{
    if line.len() < 1296 {
        return 0;
    }
    let head = [table::TYPE, num(n.0 as u32), table::GAP];
    let body = whole(frames, frame_at(frames, n.0 as usize));
    let end = size_words(f);
    put_runs(&head, &body, &end, line)
}

// The same of the line of number 45, by its override.
#[tactic(auto, unfolding(crate::specs::LinesForProofs::made_in, crate::specs::LinesForProofs::made_long))]
pub fn put_span(o: u16, line: &mut [u8]) -> usize
    ensures { (result ≡ made_long line.old (span_of o))
        × (result ≤ 1296)
        × (line.new ≡ made_in line.old (span_of o)) }
{
    if line.len() < 1296 {
        return 0;
    }
    let words = [
        table::NUMBER,
        num(45),
        table::SPAN,
        num(o as u32),
        table::FEED,
    ];
    put_pieces(&words, line, 0)
}
