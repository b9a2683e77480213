// The heading walk: a step a line. A line is what stands between LFs.
ghost use Rattle.std.specs.Prelude.{◌≡◌, ◌+◌, ◌≤◌, length, false, cond, Some, None};
ghost use Rattle.text.specs.First.{is_first};
ghost use Rattle.heading.specs.Walk.{hashes as hashes_of, heading_of, closes as closes_by, opens_comment, written_kind, comment_after, step_kind, step_after, still_kind, walk_begin};
ghost use Rattle.std.specs.Iterator.{YieldsFirst, item_count};
ghost use Rattle.heading.specs.Walk.{kinds_from};
ghost use Rattle.text.specs.Lines.{pieces};

use fence::Fence;
use std::marker::Model;
use text::lines::Split;
use text::{lines, pattern, space};

#[derive(Clone, Copy)]
pub enum LineKind {
    // In a fence, its opener and its closer with it.
    Quoted,
    // A heading: its level, and where its text starts and ends in the line.
    Heading {
        level: usize,
        start: usize,
        end: usize,
    },
    Other,
}

// The fence that is open, where one is, and whether a comment is.
#[derive(Clone, Copy)]
pub struct WalkState {
    pub fence: Option<Fence>,
    pub comment: bool,
}

// What a line is, and the state after it.
#[derive(Clone, Copy)]
pub struct WalkStep {
    pub kind: LineKind,
    pub state: WalkState,
}

// The state before the first line.
pub fn begin() -> WalkState
    ensures { result ≡ walk_begin }
{
    WalkState {
        fence: None,
        comment: false,
    }
}

// How many `#` a line begins with.
fn hashes(line: &[u8]) -> usize
    ensures { (result ≡ hashes_of line.now) × (result ≤ length line.now) }
{
    line.iter().take_while(|byte| **byte == b'#').count()
}

// A heading, or another line.
#[tactic(auto, using(text::proofs::BytesLaws::rest), unfolding(crate::specs::Walk::heading_of, crate::specs::Walk::text_start, crate::specs::Walk::text_end))]
pub fn split_heading(line: &[u8]) -> LineKind
    ensures { result ≡ heading_of line.now }
{
    let level = hashes(line);
    if !(1..=6).contains(&level) || !pattern::starts_with(&line[level..], b" ") {
        return LineKind::Other;
    }
    let start = level + space::lead(&line[level..]);
    let end = start + space::kept(&line[start..]);
    LineKind::Heading { level, start, end }
}

// Whether a line closes the open fence.
#[tactic(auto, unfolding(crate::specs::Walk::closes))]
fn closes(fence: Fence, line: &[u8]) -> bool
    ensures { result ≡ closes_by fence line.now }
{
    fence::opening_fence(line) == Some(fence)
}

// Whether a line opens a comment that it does not end.
#[tactic(auto, using(crate::proofs::WalkLaws::starts), unfolding(crate::specs::Walk::opens_comment, text::specs::Space::trim_start))]
fn opens_comment(line: &[u8]) -> bool
    ensures { result ≡ opens_comment line.now }
{
    let text = &line[space::lead(line)..];
    pattern::starts_with(text, b"<!--") && !pattern::contains(&text[4..], b"-->")
}

// A line that no fence quotes, with a comment open above it or not.
#[tactic(auto, unfolding(crate::specs::Walk::written_kind, crate::specs::Walk::comment_after))]
fn written(comment: bool, line: &[u8]) -> WalkStep
    ensures { (result.kind ≡ written_kind comment line.now) × (result.state ≡ record { fence = None; comment = comment_after comment line.now }) }
{
    let (kind, comment) = if comment {
        (LineKind::Other, !pattern::contains(line, b"-->"))
    } else if opens_comment(line) {
        (LineKind::Other, true)
    } else {
        (split_heading(line), false)
    };
    WalkStep {
        kind,
        state: WalkState {
            fence: None,
            comment,
        },
    }
}

// A quoted line, with a fence open after it or not.
fn quoted(fence: Option<Fence>, comment: bool) -> WalkStep
    ensures { result ≡ record { kind = LineKind.Quoted; state = record { fence = fence; comment = comment } } }
{
    WalkStep {
        kind: LineKind::Quoted,
        state: WalkState { fence, comment },
    }
}

// A line outside fences: an opener is looked for before comment state.
#[tactic(auto, unfolding(crate::specs::Walk::step_kind, crate::specs::Walk::step_after, crate::specs::Walk::outside_kind, crate::specs::Walk::outside_after))]
fn outside(comment: bool, line: &[u8]) -> WalkStep
    ensures { (result.kind ≡ step_kind None comment line.now) × (result.state ≡ step_after None comment line.now) }
{
    let opener = fence::opening_fence(line);
    if opener.is_some() {
        quoted(opener, comment)
    } else {
        written(comment, line)
    }
}

// A line in an open fence.
fn inside(fence: Fence, comment: bool, line: &[u8]) -> WalkStep
    ensures { result ≡ record { kind = LineKind.Quoted; state = record { fence = cond (closes_by fence line.now) None (Some fence); comment = comment } } }
{
    if closes(fence, line) {
        quoted(None, comment)
    } else {
        quoted(Some(fence), comment)
    }
}

// Whether a heading, a fence, a comment or a space can begin with a byte. Bytes below 24 hex that cannot are not told apart.
#[tactic(auto, using(crate::proofs::StillLaws::no_first))]
pub fn may_begin(b: u8) -> bool
    ensures { result ≡ false → is_first b ≡ false }
{
    b < 0x24 || matches!(b, b'<' | b'`' | b'~')
}

// A line that leaves the state as it is, and is no heading.
fn still(state: WalkState) -> WalkStep
    ensures { result ≡ record { kind = still_kind state.fence; state = state } }
{
    let kind = if state.fence.is_some() {
        LineKind::Quoted
    } else {
        LineKind::Other
    };
    WalkStep { kind, state }
}

// What a line is, and the state after it, by all its bytes.
#[tactic(auto, unfolding(crate::specs::Walk::step_kind, crate::specs::Walk::step_after))]
fn read(state: WalkState, line: &[u8]) -> WalkStep
    ensures { (result.kind ≡ step_kind state.fence state.comment line.now) × (result.state ≡ step_after state.fence state.comment line.now) }
{
    match state.fence {
        None => outside(state.comment, line),
        Some(fence) => inside(fence, state.comment, line),
    }
}

// What a line is, and the state after it. Most lines are told by their first byte; in a comment any line can end it.
#[tactic(auto, using(crate::proofs::StillLaws::still_lines))]
pub fn step(state: WalkState, line: &[u8]) -> WalkStep
    ensures { (result.kind ≡ step_kind state.fence state.comment line.now) × (result.state ≡ step_after state.fence state.comment line.now) }
{
    if line.is_empty() {
        return still(state);
    }
    if may_begin(line[0]) || state.comment {
        read(state, line)
    } else {
        still(state)
    }
}

// What the lines of a text are, one after the other.
#[derive(Drop)]
pub struct LineKinds<'a> {
    lines: Split<'a>,
    state: WalkState,
}

impl<'a> Model for LineKinds<'a> {
    ghost use Rattle.std.specs.Prelude.{List};
    ghost use Rattle.heading.specs.Walk.{kinds_from};
    ghost use Rattle.heading.specs.declared.walk.LineKind.{LineKind};

    ghost Value = { List LineKind };

    ghost view = { λ walked. kinds_from walked.state walked.lines };
}

impl<'a> Iterator for LineKinds<'a> {
    type Item = LineKind;

    ghost next_gives = { YieldsFirst (λ left. left) };

    ghost remaining = { item_count (λ left. left) };

    #[tactic(auto, unfolding(crate::specs::Walk::kinds_from))]
    fn next(&mut self) -> Option<LineKind> {
        let line = self.lines.next()?;
        let walked = step(self.state, line);
        self.state = walked.state;
        Some(walked.kind)
    }
}

// What the lines of a text are, from its first line on.
#[tactic(auto, using(crate::proofs::WalkLaws::kinds_length))]
pub fn kinds(s: &[u8]) -> LineKinds<'_>
    ensures value { result ≡ kinds_from walk_begin (pieces s.now) }
    ensures few { length result ≤ length s.now + 1 }
{
    LineKinds {
        lines: lines::pieces(s),
        state: begin(),
    }
}
