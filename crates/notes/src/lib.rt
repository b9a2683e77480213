#![tactic(auto)]

// Reads what arguments name into buffers, and makes the index of the notes. What fails is said on standard error.
ghost use Rattle.std.specs.Prelude.{◌+◌, ◌≤◌, length, IfOk, IfSome};

use station::failed::Words;
use station::note::{Note, Notes};
use station::{argument, failed, input, record};
use std::env::Env;
use std::fmt::Display;
use std::fs::Files;
use std::io::{ErrorKind, Read, Write};
use std::{fmt, fs, io, str};

pub mod buffers;

// Why a file was not read.
#[derive(Clone, Copy)]
enum Unread {
    Failed(io::Error),
    TooLarge,
}

impl From<io::Error> for Unread {
    fn from(error: io::Error) -> Self {
        Unread::Failed(error)
    }
}

impl Display for Unread {
    fn fmt<W: fmt::Write>(&self, f: &mut fmt::Formatter<W>) -> fmt::Result {
        match *self {
            Unread::Failed(error) => write!(f, "{}", Words(error)),
            Unread::TooLarge => f.write_str("there is no room left for it"),
        }
    }
}

// Reads a file to its end into a buffer, from a place on, and answers where it ends there.
fn read_all(from: &mut impl Read, buf: &mut [u8], at: usize) -> Result<usize, Unread>
    requires { at ≤ length buf.old }
    ensures { IfOk result (λ end. (at ≤ end) × (end ≤ length buf.old)) }
{
    let end = at + input::read_full(from, &mut buf[at..])?;
    if end == buf.len() && from.read(&mut [0u8; 1])? != 0 {
        return Err(Unread::TooLarge);
    }
    Ok(end)
}

// Opens a file by its name and reads it to its end into a buffer, from a place on.
fn read_named(files: &impl Files, name: &[u8], buf: &mut [u8], at: usize) -> Result<usize, Unread>
    requires { at ≤ length buf.old }
    ensures { IfOk result (λ end. (at ≤ end) × (end ≤ length buf.old)) }
{
    let path = str::from_utf8(name).map_err(|_| {
        io::Error::new(
            ErrorKind::InvalidFilename,
            "the name is not UTF-8: rename the file",
        )
    })?;
    read_all(&mut fs::open(files, path)?, buf, at)
}

// Reads the file that an argument names into a buffer, from a place on, and answers where it ends there. None where that fails, which is
// said on a writer.
pub fn read_argument<R: Env + Files>(
    rt: &R,
    to: &mut impl Write,
    i: usize,
    buf: &mut [u8],
    at: usize,
) -> Option<usize>
    requires { at ≤ length buf.old }
    ensures { IfSome result (λ end. (at ≤ end) × (end ≤ length buf.old)) }
{
    let mut room = [0u8; 4096];
    let name = argument::read(rt, i, &mut room);
    if name.is_empty() {
        let _ = writeln!(
            to,
            "stationbook: the name in argument {i} is empty or too long"
        );
        return None;
    }
    let read = read_named(rt, name, buf, at);
    if let Err(unread) = read {
        let _ = failed::say(to, argument::read_shown(rt, i, &mut room), unread);
    }
    read.ok()
}

// Writes the record of the note that an argument names at a place of an index, and answers the place after it. What is no name is left
// out, so that the record is ill formed and no byte of it makes another.
fn put_record(
    env: &impl Env,
    i: usize,
    index: &mut [u8],
    at: usize,
    start: usize,
    size: usize,
) -> usize
    requires { at + 298 ≤ length index.old }
    ensures { result ≤ at + 298 }
{
    let mut room = [0u8; 255];
    let name = argument::read(env, i, &mut room);
    let kept = if index::name::is_name(name) {
        name.len()
    } else {
        0
    };
    record::put_record(index, at, &name[..kept], start, size)
}

// Reads the note that an argument names. One whose name is not UTF-8 can't be opened, and is read as an empty one: its record has no name,
// which refusal 1 tells. None where reading fails.
fn read_note<R: Env + Files>(
    rt: &R,
    to: &mut impl Write,
    i: usize,
    buf: &mut [u8],
    at: usize,
) -> Option<usize>
    requires { at ≤ length buf.old }
    ensures { IfSome result (λ end. (at ≤ end) × (end ≤ length buf.old)) }
{
    let mut room = [0u8; 4096];
    if str::from_utf8(argument::read(rt, i, &mut room)).is_err() {
        return Some(at);
    }
    read_argument(rt, to, i, buf, at)
}

// Reads the notes that so many arguments from one on name, one behind the other, and makes their index. Answers where the index ends, and
// where each note lies in the contents. None where one can't be read.
pub fn read_notes<R: Env + Files>(
    rt: &R,
    to: &mut impl Write,
    first: usize,
    count: usize,
    index: &mut [u8],
    contents: &mut [u8],
    notes: &mut Notes,
) -> Option<usize>
    requires { (first ≤ 7) × ((count ≤ 64) × (19072 ≤ length index.old)) }
    ensures { IfSome result (λ end. end ≤ length index.old) }
{
    notes.clear();
    let mut indexed = 0;
    let mut end = 0;
    for k in 0..count {
        let start = end;
        end = read_note(rt, to, first + k, contents, start)?;
        indexed = put_record(rt, first + k, index, indexed, start, end - start);
        let _ = notes.try_push(Note { start, end });
    }
    Some(indexed)
}
