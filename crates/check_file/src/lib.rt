// Checks 4 to 6 over the frames of a file, in their order (document 01, "Numbers handed back").
#![tactic(auto)]

ghost use Rattle.std.specs.Prelude.{◌≡◌, ◌^◌, ◌<◌, ◌≤◌};
ghost use Rattle.scan.specs.Lowest.{lowest};
ghost use Rattle.frames.specs.Bytes.{frame_count};
ghost use Rattle.archive.specs.declared.Held.TheVariants.{Parts};
ghost use Rattle.archive.specs.Starts.{starts_of};
ghost use Rattle.archive.specs.Names.{names_of, names_ok};
ghost use Rattle.archive.specs.Parts.{parts_from, held_by, is_early, early_in, early_ok};
ghost use Rattle.archive.specs.ForProofs.{held_to};
ghost use Rattle.answers.specs.declared.FileError.TheVariants.{Field, Index};
ghost use Rattle.archive.specs.Checks.{field_ok, index_ok, unless, check_frames};
ghost use Rattle.answers.specs.Limit.{max_frames};

use answers::{FileError, MAX_FRAMES, Outcome};
use archive::{Held, Owner, Starts};
use archive_access::families::{find_starts, is_row, is_type};
use archive_access::order::first_disorder;
use check_fields::fields::fields_fit;
use check_names::{is_earlier, item_names, row_names, type_form_names};
use frames::{Frame, frame_at, frame_count};
use frames_rows::item_of;
use ir::numbers::is_compose;
use ir::{RowNumber, TypeNumber};

fn names_of(s: Starts, k: usize, f: Frame) -> bool
    requires { k ≤ max_frames }
    ensures { result ≡ names_of s k f }
{
    let family = f.b0;
    match family {
        0 => true,
        1 => type_form_names(s, TypeNumber(k as u16), f.type_form()),
        2 => {
            let m = f.member();
            is_type(s, m.ty)
        }
        3 => item_names(s, item_of(f)),
        4 => {
            let n = k.saturating_sub(s.rows);
            row_names(s, RowNumber(n as u16), f)
        }
        5 => is_row(s, f.component()),
        _ => true,
    }
}

// The lowest frame that names a number out of range or not earlier; parts are held against their owners elsewhere.
#[tactic(auto, unfolding(archive::specs::Names::names_ok))]
fn first_misnamed(frames: &[u8], s: Starts) -> Option<usize>
    requires { (s ≡ starts_of frames.now) × (frame_count frames.now ≤ max_frames) }
    ensures { result ≡ lowest (names_ok frames.now) (frame_count frames.now) }
{
    let n = frame_count(frames);
    (0..n).find(|k| !names_of(s, *k, frame_at(frames, *k)))
}

// The parts of an owner: `count` of them, from `from` on, as far as their family goes.
fn parts_from(from: usize, count: u16, end: usize, owner: Owner) -> Held
    requires { from < 2 ^ 33 }
    ensures { result ≡ parts_from from count end owner }
{
    Held::Parts {
        from,
        to: (from + (count as usize)).min(end),
        owner,
    }
}

// The parts that frame k holds: the members of a struct and the components of a compose; every other frame holds none.
fn held_by(s: Starts, k: usize, f: Frame) -> Held
    requires { (k ≤ max_frames) × (s.members ≤ max_frames) × (s.components ≤ max_frames) }
    ensures { result ≡ held_by s k f }
{
    if (f.b0 == 1) & (f.b1 == 9) {
        let first = f.first_member();
        let from = s.members + (first.0 as usize);
        return parts_from(
            from,
            f.count(),
            s.constants,
            Owner::Struct(TypeNumber(k as u16)),
        );
    }
    if (f.b0 == 4) & is_compose(f.b1) {
        let first = f.first_component();
        let from = s.components + (first.0 as usize);
        let n = k.saturating_sub(s.rows);
        return parts_from(from, f.count(), s.end, Owner::Compose(RowNumber(n as u16)));
    }
    Held::Nothing
}

// Whether a part is earlier than its owner: the type of a member than the struct, and the row of a component than the
// compose.
fn is_early(owner: Owner, f: Frame) -> bool
    ensures { result ≡ is_early owner f }
{
    match owner {
        Owner::Struct(n) => {
            let m = f.member();
            let t = m.ty;
            t.0 < n.0
        }
        Owner::Compose(n) => is_earlier(n, f.component()),
    }
}

// The lowest of the owner's parts, from `from` up to `to`, that is not earlier than it.
fn first_late_in(frames: &[u8], from: usize, to: usize, owner: Owner) -> Option<usize>
    requires { to ≤ frame_count frames.now }
    ensures { result
        ≡ lowest (early_in frames.now (Parts from to owner)) (frame_count frames.now) }
{
    (from..to).find(|k| !is_early(owner, frame_at(frames, *k)))
}

// The lowest part held that is not earlier than its owner.
fn first_late_of(frames: &[u8], h: Held) -> Option<usize>
    requires { held_to h ≤ frame_count frames.now }
    ensures { result ≡ lowest (early_in frames.now h) (frame_count frames.now) }
{
    match h {
        Held::Parts { from, to, owner } => first_late_in(frames, from, to, owner),
        Held::Nothing => None,
    }
}

// The lowest part that is not earlier than each of its owners.
#[tactic(auto, unfolding(archive::specs::Parts::early_ok))]
fn first_late(frames: &[u8], s: Starts) -> Option<usize>
    requires { (s ≡ starts_of frames.now) × (frame_count frames.now ≤ max_frames) }
    ensures { result ≡ lowest (early_ok frames.now) (frame_count frames.now) }
{
    let n = frame_count(frames);
    let mut found = None;
    for o in 0..n {
        let h = held_by(s, o, frame_at(frames, o));
        let late = first_late_of(frames, h);
        found = scan::lower(found, late);
    }
    found
}

// The lowest frame with a byte outside its values.
pub fn first_unfit(frames: &[u8]) -> Option<usize>
    ensures { result ≡ lowest (field_ok frames.now) (frame_count frames.now) }
{
    let n = frame_count(frames);
    (0..n).find(|k| !fields_fit(frame_at(frames, *k)))
}

// The lowest frame that names a number out of range or not earlier.
#[tactic(auto, unfolding(archive::specs::Checks::index_ok))]
fn first_misplaced(frames: &[u8]) -> Option<usize>
    requires { frame_count frames.now ≤ max_frames }
    ensures { result ≡ lowest (index_ok frames.now) (frame_count frames.now) }
{
    let s = find_starts(frames);
    let misnamed = first_misnamed(frames, s);
    let late = first_late(frames, s);
    scan::lower(misnamed, late)
}

fn check_index(frames: &[u8]) -> Outcome
    requires { frame_count frames.now ≤ max_frames }
    ensures { result
        ≡ unless Index (lowest (index_ok frames.now) (frame_count frames.now))
        (Ok (frame_count frames.now)) }
{
    match first_misplaced(frames) {
        Some(k) => Err(FileError::Index { frame: k as u16 }),
        None => Ok(frame_count(frames)),
    }
}

fn check_fields(frames: &[u8]) -> Outcome
    requires { frame_count frames.now ≤ max_frames }
    ensures { result
        ≡ unless Field (lowest (field_ok frames.now) (frame_count frames.now)) (unless Index
        (lowest (index_ok frames.now) (frame_count frames.now))
        (Ok (frame_count frames.now))) }
{
    match first_unfit(frames) {
        Some(k) => Err(FileError::Field { frame: k as u16 }),
        None => check_index(frames),
    }
}

// Checks 4 to 6 over the frames of a file; over 1,024 frames is number 1.
#[tactic(auto, unfolding(archive::specs::Checks::check_frames))]
pub fn check_frames(frames: &[u8]) -> Outcome
    ensures { result ≡ check_frames frames.now }
{
    if MAX_FRAMES < frame_count(frames) {
        return Err(FileError::Long {
            limit: MAX_FRAMES as u16,
        });
    }
    match first_disorder(frames) {
        Some(k) => Err(FileError::Order { frame: k as u16 }),
        None => check_fields(frames),
    }
}
