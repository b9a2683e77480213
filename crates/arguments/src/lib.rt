#![tactic(auto)]

// The arguments of stationbook.
ghost use Rattle.std.specs.Prelude.{◌≤◌, IfOk};
ghost use Rattle.arguments.specs.Arguments.{Called};

use buffer::decimal;
use std::env::{Env, FillError};

// The most files taken in, where no other number is given.
const ALLOWANCE: usize = 65_536;

const MOST_ALLOWANCE: usize = 4_294_967_295;

const MOST_NOTES: usize = 64;

// The allowance, which argument names the book's file, if one does, and which is the URL. The list is the argument behind the URL, and
// the notes follow it.
#[derive(Clone, Copy)]
pub struct Call {
    pub allowance: usize,
    pub book: Option<usize>,
    pub url: usize,
    pub notes: usize,
}

// Why the arguments are no call.
#[derive(Clone, Copy)]
pub enum NoCall {
    Usage,
    TooManyNotes,
}

// What an argument may be before the URL.
#[derive(Clone, Copy)]
enum Word {
    Allowance,
    Book,
    Operand,
    Unknown,
}

// How many arguments there are, the program's name among them.
fn argument_count(env: &impl Env) -> usize {
    let mut first = [0u8; 1];
    for i in 0..usize::MAX {
        if let Err(FillError::NotPresent) = env.arg(i, &mut first) {
            return i;
        }
    }
    usize::MAX
}

// One that is longer than the buffer has its first bytes there, so that a long option is seen to be one.
fn word_at(env: &impl Env, i: usize) -> Word {
    let mut word = [0u8; 16];
    let n = env.arg(i, &mut word).unwrap_or(0);
    match &word[..n] {
        b"-n" => Word::Allowance,
        b"-o" => Word::Book,
        _ if word[0] == b'-' => Word::Unknown,
        _ => Word::Operand,
    }
}

// The allowance that an argument says: a 32-bit number; None where it says none.
fn allowance_at(env: &impl Env, i: usize) -> Option<usize> {
    let mut word = [0u8; 10];
    let n = env.arg(i, &mut word).unwrap_or(0);
    if n == 0 {
        return None;
    }
    decimal::parse(&word[..n]).filter(|allowance| *allowance <= MOST_ALLOWANCE)
}

// The call that the URL is this argument of.
fn call_at(
    env: &impl Env,
    url: usize,
    allowance: usize,
    book: Option<usize>,
) -> Result<Call, NoCall>
    requires { url ≤ 5 }
    ensures { IfOk result Called }
{
    let Word::Operand = word_at(env, url) else {
        return Err(NoCall::Usage);
    };
    let notes = argument_count(env)
        .checked_sub(url + 2)
        .ok_or(NoCall::Usage)?;
    if MOST_NOTES < notes {
        return Err(NoCall::TooManyNotes);
    }
    Ok(Call {
        allowance,
        book,
        url,
        notes,
    })
}

// Reads the arguments: at most two options, and then the URL.
pub fn read(env: &impl Env) -> Result<Call, NoCall>
    ensures { IfOk result Called }
{
    let mut allowance = ALLOWANCE;
    let mut book = None;
    for at in [1, 3] {
        match word_at(env, at) {
            Word::Allowance => allowance = allowance_at(env, at + 1).ok_or(NoCall::Usage)?,
            Word::Book => book = Some(at + 1),
            Word::Operand => return call_at(env, at, allowance, book),
            Word::Unknown => return Err(NoCall::Usage),
        }
    }
    call_at(env, 5, allowance, book)
}
