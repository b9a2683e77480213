// What is said of something that failed: what it was for, a colon and why, on a line.
ghost use Rattle.std.specs.Prelude.{◌∷◌, ◌++◌, [], IfSome, OnOk};
ghost use Rattle.std.specs.Io.KnownBytes.{Appends};

use std::fmt::Display;
use std::io::Write;
use std::{fmt, io, str};
use text::pattern;

// The system's own words for an error: what std writes of it, without the number behind them.
#[derive(Clone, Copy)]
pub struct Words(pub io::Error);

impl Display for Words {
    fn fmt<W: fmt::Write>(&self, f: &mut fmt::Formatter<W>) -> fmt::Result {
        let mut text = [0u8; 320];
        let room = text.len();
        let mut rest = &mut text[..];
        let _ = write!(rest, "{}", self.0);
        let end = room.saturating_sub(rest.len());
        let words = match pattern::find(&text[..end], b" (os error ") {
            Some(at) if at < end => &text[..at],
            _ => &text[..end],
        };
        f.write_str(str::from_utf8(words).unwrap_or(""))
    }
}

// No Display for the whole: what failed is bytes, a file's name.
pub fn say<W: Write, D: Display + Drop>(to: &mut W, what: &[u8], why: D) -> io::Result<()>
    ensures { OnOk result (IfSome (D.output why) (λ w. Appends (W.contents to.old) (W.contents to.new) (what.now ++ (0x3A ∷ 0x20 ∷ (w ++ (0x0A ∷ [])))))) }
{
    to.write_all(what)?;
    writeln!(to, ": {why}")
}
