#![tactic(auto)]

// Scans the stored cases of standard input and prints each answer: the six numbers, the listing if the text was accepted, and the outline if it is ASCII.
use answer::Answer;
use std::io;
use std::io::{Read, Write};
use stored::header;
use stored::print::Row;
use text::ascii;

mod outline;

// Scans a text into an output of zeros and prints the answer and the outline. No Display: the listing is bytes.
fn print_scan(to: &mut impl Write, text: &[u8], out: &mut [u8]) -> io::Result<()> {
    let answer = listing::scan(text, out);
    writeln!(to, "{}", Row(answer::numbers(answer)))?;
    if let Ok(Answer::Accepted { length, .. }) = answer
        && let Some(rows) = out.get(..length)
    {
        to.write_all(rows)?;
    }
    if ascii::wide_line(text).is_none() {
        outline::print(to, text)?;
    }
    Ok(())
}

// Reads a text of so many bytes and scans it into an output of `room` zeros. Answers whether there is memory for both and all of the text was there.
fn replay_text(
    from: &mut impl Read,
    to: &mut impl Write,
    length: usize,
    room: usize,
) -> io::Result<bool> {
    let mut text = [0u8; 16384];
    let mut out = [0u8; 65536];
    let (Some(text), Some(out)) = (text.get_mut(..length), out.get_mut(..room)) else {
        return Ok(false);
    };
    if !stored::is_filled(from, text)? {
        return Ok(false);
    }
    print_scan(to, text, out)?;
    Ok(true)
}

fn main(rt: HostRuntime) -> io::Result<()> {
    stored::replay(
        &mut rt.stdin(),
        &mut io::writer(&rt),
        &mut [0u8; 14],
        |bytes, from, to| match bytes.get(..14).and_then(header::parse) {
            Some((length, room)) => replay_text(from, to, length, room),
            None => Ok(false),
        },
    )
}
