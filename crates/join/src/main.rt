// The joining program: reads the two files that its arguments name and prints the lines of their join (document 02,
// request 14); else one line with the number, its place and whose it is: 0 the first file's, 1 the second's, 2 the
// join's own. The limit of frames may stand after the names. Reads no more of each than one byte over the longest file;
// its buffer for lines has room for any join.
//
// What it must print by its stored run was written by hand, as were its files. The second's types are moved past 3,
// its members, overrides, arguments and components past 1, and its rows past 4.
#![tactic(auto)]

ghost use Rattle.std.specs.Prelude.{◌≤◌, IfOk, length};

use answers::{MAX_FRAME_BYTES, MAX_LIMIT, MAX_TEXT_BYTES};
use file_exports::put_joined;
use file_join::join_files;
use file_lines::put_lines;
use law_join::JoinedFile;
use program_limit::Word;
use program_limit::arguments::{is_given, word_at};
use program_limit::input::read_full;
use std::fs::File;
use std::io;
use std::rt::{Env, Files};
use std::str::from_utf8;

fn print_number(rt: &impl Print, given: JoinedFile) -> io::Result<()> {
    let mut bytes = [0u8; 16];
    put_joined(&mut bytes, given);
    let mut line = [0u8; 33];
    if let Some(_) = put_lines(&bytes, &mut line) {
        rt.write_all(&line)?;
    }
    Ok(())
}

fn print_join(rt: &impl Print, first: &[u8], second: &[u8], limit: u32) -> io::Result<()> {
    let mut frames = [0u8; MAX_FRAME_BYTES];
    let mut more = [0u8; MAX_FRAME_BYTES];
    let mut lines = [0u8; MAX_TEXT_BYTES];
    match join_files(first, second, limit, &mut frames, &mut more, &mut lines) {
        JoinedFile::Frames(n) => rt.write_all(&lines[..33 * n as usize]),
        JoinedFile::First(o) => print_number(rt, JoinedFile::First(o)),
        JoinedFile::Second(o) => print_number(rt, JoinedFile::Second(o)),
        JoinedFile::NotJoinable => print_number(rt, JoinedFile::NotJoinable),
        JoinedFile::Long { limit: m } => print_number(rt, JoinedFile::Long { limit: m }),
        JoinedFile::Short => print_number(rt, JoinedFile::Short),
    }
}

// Opens the file that argument i names, and reads it.
fn read_named<R: Env + Files>(rt: &R, i: usize, text: &mut [u8]) -> io::Result<usize>
    ensures ok { IfOk result (λ n. n ≤ length text.new) }
{
    let mut name = [0u8; 4096];
    match rt.arg(i, &mut name) {
        Ok(n) => match from_utf8(&name[..n]) {
            Ok(path) => {
                let mut file = File::open(rt, path)?;
                read_full(&mut file, text)
            }
            Err(_) => Err(io::Error::from(io::ErrorKind::InvalidInput)),
        },
        Err(_) => Err(io::Error::from(io::ErrorKind::InvalidInput)),
    }
}

fn join_named<R: Env + Files + Print>(rt: &R, limit: u32) -> io::Result<()> {
    let mut first = [0u8; MAX_TEXT_BYTES + 1];
    let n = read_named(rt, 1, &mut first)?;
    let mut second = [0u8; MAX_TEXT_BYTES + 1];
    let m = read_named(rt, 2, &mut second)?;
    print_join(rt, &first[..n], &second[..m], limit)
}

// The limit by argument 3.
fn asked_limit(env: &impl Env) -> Word {
    match word_at(env, 3) {
        Word::Absent => Word::Limit(MAX_LIMIT),
        Word::Limit(limit) => Word::Limit(limit),
        Word::Wgsl => Word::Wgsl,
        Word::Neither => Word::Neither,
    }
}

fn main(rt: HostRuntime) -> io::Result<()> {
    if is_given(&rt, 2) && !is_given(&rt, 4) {
        if let Word::Limit(limit) = asked_limit(&rt) {
            return join_named(&rt, limit);
        }
    }
    rt.eprintln(
        "The arguments are the names of the two files, and the limit of frames, a number in decimal (1 to 1024, any \
         other counting as 1024), which may be left out.",
    )
}
