// The lines that a scan has to look at. Most lines have neither `--[` nor three backticks or tildes, and are skipped by blocks.
ghost use Rattle.std.specs.Prelude.{◌≡◌, false, ◌-◌, ◌≤◌, length};
ghost use Rattle.text.specs.Bytes.{part};
ghost use Rattle.scan.specs.Skip.{any_three, trace, hint, Sought};

use marker::line::Line;
use text::{bytes, lines};

// A line: its number, where it starts and ends, and where the next one starts.
#[derive(Clone, Copy)]
pub struct LineAt {
    pub number: usize,
    pub start: usize,
    pub end: usize,
    pub next: usize,
}

impl LineAt {
    // The line itself, in its text.
    pub fn within(self, s: &[u8]) -> Line
        requires { (self.start ≤ self.end) × (self.end ≤ length s.now) }
        ensures { (result.at ≡ self.start) × (result.bytes.now ≡ part self.start self.end s.now) }
    {
        Line {
            at: self.start,
            bytes: &s[self.start..self.end],
        }
    }
}

// Whether the trace of a hint stands in s: a quicker test, which reads two bytes of three. `-` and `[` differ by 76 hex.
fn has_trace(s: &[u8]) -> bool
    ensures { result ≡ any_three trace s.now }
{
    let mut hit = false;
    for j in 0..s.len().saturating_sub(2) {
        let x = s[j];
        let z = s[j + 2];
        hit |= (x == b'`') | (x == b'~') | ((x ^ z) == 0x76);
    }
    hit
}

// Whether a hint stands in s.
fn has_hint(s: &[u8]) -> bool
    ensures { result ≡ any_three hint s.now }
{
    let mut hit = false;
    for j in 0..s.len().saturating_sub(2) {
        let x = s[j];
        let y = s[j + 1];
        let z = s[j + 2];
        hit |= (x == y) & (((x == z) & ((x == b'`') | (x == b'~'))) | ((x == b'-') & (z == b'[')));
    }
    hit
}

// The same for a block, where mostly the quicker test tells that none does.
fn block_has_hint(s: &[u8]) -> bool
    ensures { result ≡ any_three hint s.now }
{
    has_trace(s) && has_hint(s)
}

// A place from a place on up to which no hint stands: the start of a block that has one, or the length.
fn skip_blocks(s: &[u8], from: usize) -> usize
    requires { from ≤ length s.now }
    ensures { (from ≤ result) × ((result ≤ length s.now) × (any_three hint (part from result s.now) ≡ false)) }
{
    let blocks = (s.len() - from).saturating_sub(2) / 64;
    for k in 0..blocks {
        let i = from + 64 * k;
        if block_has_hint(&s[i..i + 66]) {
            return i;
        }
    }
    let rest = from + 64 * blocks;
    if has_hint(&s[rest..]) { rest } else { s.len() }
}

// The next line to look at from place a on, where a line starts after n lines; None where there is none.
pub fn next_line(s: &[u8], a: usize, n: usize) -> Option<LineAt>
    requires { (a ≤ length s.now) × (n ≤ a) }
    ensures { Sought s.now a n result }
{
    let hint = skip_blocks(s, a);
    if hint == s.len() {
        return None;
    }
    let start = a + bytes::after_last(&s[a..hint], b'\n');
    let line = lines::line(s, start, hint);
    Some(LineAt {
        number: n + bytes::count_byte(&s[a..start], b'\n') + 1,
        start,
        end: line.end,
        next: line.next,
    })
}
