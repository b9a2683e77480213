// Stored cases of a call with a walk, replayed: index, contents and two more texts, the limits, and the sizes of output and work.
ghost use Rattle.std.specs.Prelude.{OnOk, IfSome};
ghost use Rattle.std.specs.Io.KnownBytes.{Appends};
ghost use Rattle.stored.specs.Case.{Small};
ghost use Rattle.stored.specs.Row.{answer_text};

use crate::header;
use crate::print::Row;
use std::io;
use std::io::{Read, Write};

// The four texts together.
const MOST_GIVEN: usize = 16_384;

// An output, or a work buffer.
const MOST_ROOM: usize = 65_536;

// Six digits, as many as a header has for it.
const MOST_ALLOWANCE: usize = 999_999;

// What a call is handed, but for its output and work buffer.
#[derive(Clone, Copy)]
pub struct Case<'a> {
    pub index: &'a [u8],
    pub contents: &'a [u8],
    pub third: &'a [u8],
    pub fourth: &'a [u8],
    pub limit: usize,
    pub allowance: u32,
}

// The numbers of a case's headers: the lengths of its texts, the limits, and the sizes of output and work.
#[derive(Clone, Copy)]
struct Sizes {
    index: usize,
    contents: usize,
    third: usize,
    fourth: usize,
    limit: usize,
    allowance: u32,
    out: usize,
    work: usize,
}

// The numbers of four headers; None where one is ill formed or there is no memory for the case.
fn sizes_of(headers: &[u8]) -> Option<Sizes>
    ensures { IfSome result Small }
{
    let (index, contents) = header::parse(headers.get(..14)?)?;
    let (third, fourth) = header::parse(headers.get(14..28)?)?;
    let (limit, allowance) = header::parse(headers.get(28..42)?)?;
    let (out, work) = header::parse(headers.get(42..56)?)?;
    let given = index
        .saturating_add(contents)
        .saturating_add(third)
        .saturating_add(fourth);
    if MOST_GIVEN < given || MOST_ROOM < out || MOST_ROOM < work || MOST_ALLOWANCE < allowance {
        return None;
    }
    Some(Sizes {
        index,
        contents,
        third,
        fourth,
        limit,
        allowance: allowance as u32,
        out,
        work,
    })
}

// The case whose texts stand one behind the other; None where they do not fit.
fn case_of(given: &[u8], sizes: Sizes) -> Option<Case<'_>> {
    let (index, rest) = given.split_at_checked(sizes.index)?;
    let (contents, rest) = rest.split_at_checked(sizes.contents)?;
    let (third, rest) = rest.split_at_checked(sizes.third)?;
    let fourth = rest.get(..sizes.fourth)?;
    Some(Case {
        index,
        contents,
        third,
        fourth,
        limit: sizes.limit,
        allowance: sizes.allowance,
    })
}

// Prints the six numbers of an answer, and its text and LF where there is one. No Display: the text is bytes.
#[tactic(auto, unfolding(crate::specs::Row::answer_text))]
fn print_answer<W: Write>(to: &mut W, numbers: [u64; 6], out: &[u8]) -> io::Result<()>
    ensures { OnOk result (Appends (W.contents to.old) (W.contents to.new) (answer_text numbers out.now)) }
{
    writeln!(to, "{}", Row(numbers))?;
    let [0, length, ..] = numbers else {
        return Ok(());
    };
    let Some(text) = out.get(..length as usize) else {
        return Ok(());
    };
    to.write_all(text)?;
    to.write_all(b"\n")
}

// Reads the texts of a case, makes its call in buffers of zeros, and prints the answer. Answers whether its texts are all there.
fn replay_texts<F: Fn(Case<'_>, &mut [u8], &mut [u8]) -> [u64; 6]>(
    from: &mut impl Read,
    to: &mut impl Write,
    sizes: Sizes,
    call: &F,
) -> io::Result<bool>
    requires { F.IsAlwaysCallable call.now × Small sizes }
{
    let mut given = [0u8; MOST_GIVEN];
    let mut out = [0u8; MOST_ROOM];
    let mut work = [0u8; MOST_ROOM];
    let given = &mut given[..sizes.index + sizes.contents + sizes.third + sizes.fourth];
    if !crate::is_filled(from, given)? {
        return Ok(false);
    }
    let Some(case) = case_of(given, sizes) else {
        return Ok(false);
    };
    let out = &mut out[..sizes.out];
    let numbers = call(case, out, &mut work[..sizes.work]);
    print_answer(to, numbers, out)?;
    Ok(true)
}

// Replays the stored cases of an input by a call, and prints the answer of each.
pub fn replay<R: Read, W: Write, F: Fn(Case<'_>, &mut [u8], &mut [u8]) -> [u64; 6]>(
    from: &mut R,
    to: &mut W,
    call: F,
) -> io::Result<()>
    requires { F.IsAlwaysCallable call }
{
    crate::replay(
        from,
        to,
        &mut [0u8; 56],
        |headers: &[u8], from: &mut R, to: &mut W|
            requires { F.IsAlwaysCallable call }
        {
            match sizes_of(headers) {
                Some(sizes) => replay_texts(from, to, sizes, &call),
                None => Ok(false),
            }
        },
    )
}
