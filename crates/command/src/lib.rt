#![tactic(auto)]

// stationbook: a book of notes on the disk. Answers the exit status: 0 for a book, 1 for a refusal, 2 for what is no call.
ghost use Rattle.std.specs.Prelude.{◌≤◌, length};
ghost use Rattle.arguments.specs.Arguments.{Called};

use answer::Answer;
use arguments::{Call, NoCall};
use notes::buffers;
use report::named::Input;
use station::failed::Words;
use station::note::Notes;
use station::{argument, failed};
use std::env::Env;
use std::fs::Files;
use std::io::{Print, Write};
use text::bytes;

const BOOK: u8 = 0;

const REFUSED: u8 = 1;

const NO_CALL: u8 = 2;

// The size of the work buffer.
const WORK: usize = 3_670_016;

// Writes the book, so long at the front of a buffer, to the file that an argument names, or to standard output.
fn give<R: Env + Files + Print>(
    rt: &R,
    to: &mut impl Write,
    book: Option<usize>,
    out: &[u8],
    length: usize,
) -> u8
    ensures { result ≤ 2 }
{
    let Some(text) = out.get(..length) else {
        return NO_CALL;
    };
    if let Some(file) = book {
        return if save::save(rt, to, file, text) {
            BOOK
        } else {
            NO_CALL
        };
    }
    match rt.write_all(text) {
        Ok(()) => BOOK,
        Err(e) => {
            let _ = failed::say(to, b"standard output", Words(e));
            NO_CALL
        }
    }
}

// Makes the book and writes it, or says why there is none.
fn make<R: Env + Files + Print>(
    rt: &R,
    to: &mut impl Write,
    call: Call,
    index: &[u8],
    input: Input<'_>,
) -> u8
    requires { Called call × (length input.list.now ≤ 65536) }
    ensures { result ≤ 2 }
{
    let mut out = buffers::text_buffer();
    let mut work = buffers::work_buffer();
    let mut url = [0u8; 4096];
    let lines = bytes::count_byte(input.list, b'\n');
    let limit = station::largest_limit(WORK, call.notes, lines);
    let answer = book_call::book(
        index,
        input.contents,
        input.list,
        argument::read(rt, call.url, &mut url),
        limit,
        call.allowance,
        &mut out,
        &mut work,
    );
    match answer {
        Ok(Answer::Accepted { length, .. }) => give(rt, to, call.book, &out, length),
        Ok(Answer::NoRegion) => NO_CALL,
        Err(refusal) => {
            let _ = report::say_refusal(rt, to, call.url, refusal, input);
            REFUSED
        }
    }
}

// Reads the list and the notes, and makes the book of them.
fn call_on<R: Env + Files + Print>(rt: &R, to: &mut impl Write, call: Call) -> u8
    requires { Called call }
    ensures { result ≤ 2 }
{
    let mut list = [0u8; 65536];
    let Some(listed) = notes::read_argument(rt, to, call.url + 1, &mut list, 0) else {
        return NO_CALL;
    };
    let mut index = buffers::index_buffer();
    let mut contents = buffers::text_buffer();
    let mut notes = Notes::new();
    let Some(indexed) = notes::read_notes(
        rt,
        to,
        call.url + 2,
        call.notes,
        &mut index,
        &mut contents,
        &mut notes,
    ) else {
        return NO_CALL;
    };
    let input = Input {
        list: &list[..listed],
        contents: &contents,
        notes: &notes,
    };
    make(rt, to, call, &index[..indexed], input)
}

// Whether the book can go where it is to go: to no file, or to one that is none of those read.
fn can_give(env: &impl Env, to: &mut impl Write, call: Call) -> bool
    requires { Called call }
{
    match call.book {
        Some(file) => save::can_save(env, to, file, call.url + 1, call.notes + 1),
        None => true,
    }
}

// Runs stationbook on the program's arguments, and answers its exit status. What is wrong is said on a writer, standard error.
pub fn run<R: Env + Files + Print>(rt: &R, to: &mut impl Write) -> u8
    ensures { result ≤ 2 }
{
    match arguments::read(rt) {
        Ok(call) if can_give(rt, to, call) => call_on(rt, to, call),
        Ok(_) => NO_CALL,
        Err(NoCall::Usage) => {
            let _ = to.write_all(b"usage: stationbook [-n ALLOWANCE] [-o BOOK] URL LIST NOTE...\n");
            NO_CALL
        }
        Err(NoCall::TooManyNotes) => {
            let _ = to.write_all(b"stationbook: there are more than 64 notes\n");
            NO_CALL
        }
    }
}
