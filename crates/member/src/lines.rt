// The lines that a member keeps, one after the other: those that are no hand-written contents.
ghost use Rattle.std.specs.Prelude.{cond, ◌≡◌, ◌<◌, ltb, length};
ghost use Rattle.member.specs.Lines.{at_first, CursorIn, FoundLine, FoundHeading};
ghost use Rattle.member.specs.Passed.{FoundStill, PassedOver};

use heading::contents;
use heading::walk::{LineKind, WalkState};
use text::{bytes, lines};

// Where the next line starts, how many lines are kept before it, and the heading walk's state there. Behind the last line it is past the end.
#[derive(Clone, Copy)]
pub struct LineCursor {
    pub at: usize,
    pub line: usize,
    pub state: WalkState,
}

// A line by its ends, with what it is and the cursor behind it.
#[derive(Clone, Copy)]
pub struct KeptLine {
    pub start: usize,
    pub end: usize,
    pub kind: LineKind,
    pub behind: LineCursor,
}

// A heading: its level, where its text starts and ends, and the cursor behind its line.
#[derive(Clone, Copy)]
pub struct KeptHeading {
    pub level: usize,
    pub start: usize,
    pub end: usize,
    pub behind: LineCursor,
}

// Lines passed over: the cursor behind them, and where the last of them that is not empty ends.
#[derive(Clone, Copy)]
pub struct Passed {
    pub behind: LineCursor,
    pub end: usize,
}

// The cursor before the first line.
pub fn first() -> LineCursor
    ensures { result ≡ at_first }
{
    LineCursor {
        at: 0,
        line: 0,
        state: heading::walk::begin(),
    }
}

// Where lines end without empty ones, with one more that stands from a place up to another.
fn last_end(old: usize, at: usize, end: usize) -> usize
    ensures { result ≡ cond (ltb at end) end old }
{
    if at < end { end } else { old }
}

// Where the line ends that starts at a place, if its first byte tells it to be such a line; None behind the last byte too. In an unlinked one no `]`
// stands.
fn still_line(s: &[u8], at: usize, unlinked: bool) -> Option<usize>
    ensures { FoundStill s.now at unlinked result }
{
    let first = *s.get(at)?;
    if first == b'\n' {
        return Some(at);
    }
    if heading::walk::may_begin(first) {
        return None;
    }
    let end = bytes::find_byte(s, at, b'\n');
    if unlinked && bytes::has(&s[at..end], b']') {
        return None;
    }
    Some(end)
}

// Passes over such lines from a cursor on, where lines that are not blank ended at a place before.
pub fn pass(s: &[u8], from: LineCursor, end: usize, unlinked: bool) -> Passed
    requires { CursorIn from s.now }
    ensures { PassedOver s.now from end unlinked result }
{
    let LineCursor {
        mut at,
        mut line,
        state,
    } = from;
    if state.comment {
        return Passed { behind: from, end };
    }
    let mut last = end;
    while let Some(stop) = still_line(s, at, unlinked) {
        last = last_end(last, at, stop);
        at = stop + 1;
        line += 1;
    }
    Passed {
        behind: LineCursor { at, line, state },
        end: last,
    }
}

// The next line kept from a cursor on; None where none is left.
pub fn next_line(s: &[u8], from: LineCursor) -> Option<KeptLine>
    requires { CursorIn from s.now }
    ensures { FoundLine s.now from result }
{
    let mut start = from.at;
    let mut within = false;
    for text in lines::pieces(s.get(start..)?) {
        let end = start + text.len();
        within = contents::drops(within, text);
        if !within {
            let step = heading::walk::step(from.state, text);
            return Some(KeptLine {
                start,
                end,
                kind: step.kind,
                behind: LineCursor {
                    at: end + 1,
                    line: from.line + 1,
                    state: step.state,
                },
            });
        }
        start = end + 1;
    }
    None
}

// The next heading from a cursor on; None where none is left.
pub fn next_heading(s: &[u8], from: LineCursor) -> Option<KeptHeading>
    requires { CursorIn from s.now }
    ensures { FoundHeading s.now from result }
{
    let mut cursor = from;
    while let Some(line) = next_line(s, pass(s, cursor, 0, false).behind) {
        if let LineKind::Heading { level, start, end } = line.kind {
            return Some(KeptHeading {
                level,
                start: line.start + start,
                end: line.start + end,
                behind: line.behind,
            });
        }
        cursor = line.behind;
    }
    None
}
