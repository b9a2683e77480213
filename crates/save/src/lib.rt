#![tactic(auto)]

// Saves a text: to a new file beside the one named, which then takes its name. So the name has the old text or the new one, whole.
ghost use Rattle.std.specs.Prelude.{◌≤◌, length};

use station::failed::Words;
use station::{argument, failed, shown};
use std::env::Env;
use std::fs::{Files, OpenFile, OpenOptions};
use std::io::{ErrorKind, Write};
use std::{fs, io, str};

// The longest name: `.part` behind it still makes a path.
const MOST: usize = 4_000;

// A file's name as the system's calls take it.
fn path_of(name: &[u8]) -> io::Result<&str> {
    str::from_utf8(name).map_err(|_| {
        io::Error::new(
            ErrorKind::InvalidFilename,
            "the name is not UTF-8: give the book another",
        )
    })
}

// Writes a text to an open file. It has reached the disk then.
fn write_whole(file: &mut (impl Write + OpenFile), text: &[u8]) -> io::Result<()> {
    file.write_all(text)?;
    file.sync_all()
}

// Writes a text to a new file, in place of an old one of its name. No file is left where that fails.
fn write_new(files: &impl Files, name: &[u8], text: &[u8]) -> io::Result<()> {
    let path = path_of(name)?;
    let _ = fs::remove_file(files, path);
    let mut file = OpenOptions::new()
        .write(true)
        .create_new(true)
        .open(files, path)?;
    let written = write_whole(&mut file, text);
    if written.is_err() {
        let _ = fs::remove_file(files, path);
    }
    written
}

// Gives a file another's name. It is removed where that fails.
fn rename(files: &impl Files, from: &[u8], to: &[u8]) -> io::Result<()> {
    let path = path_of(from)?;
    let renamed = fs::rename(files, path, path_of(to)?);
    if renamed.is_err() {
        let _ = fs::remove_file(files, path);
    }
    renamed
}

// Writes a text to a new file beside this one, and renames it. Answers whether it did. What fails is said by the other file's name as it
// is shown, which begins with this one's.
fn replace(
    files: &impl Files,
    to: &mut impl Write,
    name: &[u8],
    beside: &[u8],
    shown: &[u8],
    text: &[u8],
) -> bool
    requires { length name.now ≤ length shown.now }
{
    if let Err(e) = write_new(files, beside, text) {
        let _ = failed::say(to, shown, Words(e));
        return false;
    }
    if let Err(e) = rename(files, beside, name) {
        let _ = failed::say(to, &shown[..name.len()], Words(e));
        return false;
    }
    true
}

// Saves a text to the file that an argument names. Answers whether it did; what fails is said on a writer.
pub fn save<R: Env + Files>(rt: &R, to: &mut impl Write, i: usize, text: &[u8]) -> bool {
    let mut name = [0u8; 4096];
    let n = rt.arg(i, &mut name).unwrap_or(0);
    if MOST < n {
        return false;
    }
    let mut beside = name;
    let end = buffer::copy(b".part", &mut beside, n);
    let mut said = beside;
    shown::show(&mut said);
    replace(rt, to, &name[..n], &beside[..end], &said[..end], text)
}

// Whether two names are one path, without a look at the disk. A name that does not start at the root is put below parts that no name has,
// so that a `..` drops one of those.
fn is_same(a: &[u8], b: &[u8]) -> bool {
    let above = b"\0/\0/\0/\0/\0/\0/\0/\0";
    let mut whole = [0u8; 4096];
    let Some(at) = resolve::resolve_into(b, above, &mut whole) else {
        return false;
    };
    resolve::resolves_to(a, above, &whole[at..])
}

// Whether an argument is the file that a book goes to, or the one beside it.
fn is_book(env: &impl Env, i: usize, book: &[u8], beside: &[u8]) -> bool {
    let mut room = [0u8; 4096];
    let name = argument::read(env, i, &mut room);
    is_same(name, book) || is_same(name, beside)
}

// Whether one of so many arguments from one on is the file that a book goes to, or the one beside it. The first such is said.
fn is_given(
    env: &impl Env,
    to: &mut impl Write,
    first: usize,
    count: usize,
    book: &[u8],
    beside: &[u8],
) -> bool
    requires { (first ≤ 7) × (count ≤ 65) }
{
    for k in 0..count {
        if is_book(env, first + k, book, beside) {
            let mut room = [0u8; 4096];
            let name = argument::read_shown(env, first + k, &mut room);
            let _ = failed::say(to, name, "the book would be written over this file");
            return true;
        }
    }
    false
}

// Whether a book can go to the file that an argument names: the name is one, and none of so many arguments from one on.
pub fn can_save(env: &impl Env, to: &mut impl Write, i: usize, first: usize, count: usize) -> bool
    requires { (first ≤ 7) × (count ≤ 65) }
{
    let mut name = [0u8; 4096];
    let n = env.arg(i, &mut name).unwrap_or(0);
    if n == 0 || MOST < n {
        let _ = to.write_all(b"stationbook: the name of the book is empty or too long\n");
        return false;
    }
    let mut beside = name;
    let end = buffer::copy(b".part", &mut beside, n);
    !is_given(env, to, first, count, &name[..n], &beside[..end])
}
