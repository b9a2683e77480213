#![tactic(auto)]

// What is said on standard error of a refusal: its place, its sentence and its number. No Display: much of it is bytes of arguments, of
// notes and of the list, and an argument is read from the environment.
ghost use Rattle.std.specs.Prelude.{◌≡◌, ◌≤◌, ◌-◌, ◌^◌, OnOk, min};
ghost use Rattle.std.specs.Io.KnownBytes.{Appends};
ghost use Rattle.report.specs.Report.{argument_of, line_text};

use crate::named::Input;
use answer::{Place, Refusal};
use station::argument;
use std::env::Env;
use std::io;
use std::io::Write;

pub mod named;

// The argument that a place of a refusal with this number stands in, where the URL is this argument, the list the next, and the notes follow.
// The sum stops at the largest number of all, which no argument has.
#[tactic(auto, unfolding(crate::specs::Report::argument_of))]
fn argument_of(url: usize, number: u64, place: Place) -> usize
    requires { url ≤ 71 }
    ensures { result ≡ min (argument_of url number place) (2 ^ 64 - 1) }
{
    let behind = match place.file {
        0 if number <= 4 => place.line,
        file => file,
    };
    (url + 1).saturating_add(behind)
}

fn say_argument(env: &impl Env, to: &mut impl Write, i: usize) -> io::Result<()> {
    to.write_all(argument::read_shown(env, i, &mut [0u8; 4096]))
}

fn say_line<W: Write>(to: &mut W, line: usize) -> io::Result<()>
    ensures { OnOk result (Appends (W.contents to.old) (W.contents to.new) (line_text line)) }
{
    if 0 < line {
        write!(to, ":{line}")?;
    }
    Ok(())
}

// A place as compilers write it. An index line is a note, and has no line in it; sizes have no place.
fn say_place(env: &impl Env, to: &mut impl Write, url: usize, refusal: Refusal) -> io::Result<()>
    requires { url ≤ 71 }
{
    let number = refusal.number();
    let place = refusal.place();
    match refusal {
        Refusal::Sizes => return Ok(()),
        Refusal::NameForm => to.write_all(b"URL")?,
        Refusal::IndexLine(_)
        | Refusal::TooManyRecords
        | Refusal::PastContents(_)
        | Refusal::NameTwice(_) => say_argument(env, to, argument_of(url, number, place))?,
        _ => {
            say_argument(env, to, argument_of(url, number, place))?;
            say_line(to, place.line)?;
        }
    }
    to.write_all(b": ")
}

// The name in a refusal's sentence: the second place's, or that of the file named at its place.
fn say_name(
    env: &impl Env,
    to: &mut impl Write,
    url: usize,
    refusal: Refusal,
    input: Input<'_>,
) -> io::Result<()>
    requires { url ≤ 71 }
{
    if let Refusal::SharedAnchor(_, second) = refusal {
        say_argument(env, to, argument_of(url, refusal.number(), second))?;
        return say_line(to, second.line);
    }
    match input.name_at(refusal.place()) {
        Some(name) => named::say_shown(to, name),
        None => Ok(()),
    }
}

// What a refusal says, on a line. The URL is this argument, the list the next, and the notes follow.
pub fn say_refusal(
    env: &impl Env,
    to: &mut impl Write,
    url: usize,
    refusal: Refusal,
    input: Input<'_>,
) -> io::Result<()>
    requires { url ≤ 71 }
{
    say_place(env, to, url, refusal)?;
    to.write_all(words::up_to_name(refusal).as_bytes())?;
    if let Some(rest) = words::behind_name(refusal) {
        say_name(env, to, url, refusal, input)?;
        to.write_all(rest.as_bytes())?;
    }
    writeln!(to, " (refusal {})", refusal.number())
}
