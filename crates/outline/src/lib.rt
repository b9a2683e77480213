#![tactic(auto)]

// What is known of a member once it is prepared.
ghost use Rattle.std.specs.Prelude.{true, cond, ◌≡◌, ◌+◌, ◌≤◌};
ghost use Rattle.heading.specs.Level.{any_past, first_past};
ghost use Rattle.text.specs.Space.{is_blank};
ghost use Rattle.shift.specs.Levels.{AreLevels};
ghost use Rattle.outline.specs.Seen.{titled_by, moved_kind, title_at, Placed, SeenWith};
ghost use Rattle.outline.specs.Outline.{FoundOutline, moved_kinds, ShiftBelow};

use heading::walk::LineKind;
use member::lines;
use shift::level;
use shift::level::Levels;
use text::part::Part;
use text::space;

// Where its lines end without blank ones, where its title's text stands, and the levels of its other headings, where it has any.
#[derive(Clone, Copy, Default)]
pub struct Outline {
    pub end: usize,
    pub title: Part,
    pub levels: Option<Levels>,
}

// What is seen of the lines so far: where the title's text stands, once there is a title, and the levels of the other headings.
#[derive(Clone, Copy)]
struct Seen {
    title: Option<Part>,
    levels: Option<Levels>,
}

// Whether there is a title among the lines up to one of this kind, where there is one before it or not: the first H1.
pub fn titled_by(titled: bool, kind: LineKind) -> bool
    ensures { result ≡ titled_by titled kind }
{
    titled || matches!(kind, LineKind::Heading { level: 1, .. })
}

// What a line is where the title is no heading to be moved.
pub fn moved_kind(titled: bool, kind: LineKind) -> LineKind
    ensures { result ≡ moved_kind titled kind }
{
    match kind {
        LineKind::Heading { level: 1, .. } if !titled => LineKind::Other,
        _ => kind,
    }
}

// Where the title's text stands, with a line more of this kind that starts at a place.
fn title_at(found: Option<Part>, at: usize, kind: LineKind) -> Option<Part>
    requires { Placed kind at }
    ensures { result ≡ title_at found at kind }
{
    match kind {
        LineKind::Heading {
            level: 1,
            start,
            end,
        } if found.is_none() => Some(Part {
            start: at + start,
            end: at + end,
        }),
        _ => found,
    }
}

// Where lines end without blank ones, with one line more.
fn end_with(old: usize, line: &[u8], end: usize) -> usize
    ensures { result ≡ cond (is_blank line.now) old end }
{
    if space::is_blank(line) { old } else { end }
}

// What is seen with one line more.
fn with_line(seen: Seen, at: usize, kind: LineKind) -> Seen
    requires { Placed kind at }
    ensures { SeenWith seen at kind result }
{
    Seen {
        title: title_at(seen.title, at, kind),
        levels: level::with_line(seen.levels, moved_kind(seen.title.is_some(), kind)),
    }
}

// Prepares a member: its lines without hand-written contents and without blank ones at the end, its title and its levels; None where it has no title.
pub fn prepare(s: &[u8]) -> Option<Outline>
    ensures { FoundOutline s.now result }
{
    let mut seen = Seen {
        title: None,
        levels: None,
    };
    let mut passed = lines::pass(s, lines::first(), 0, false);
    while let Some(line) = lines::next_line(s, passed.behind) {
        let end = end_with(passed.end, &s[line.start..line.end], line.end);
        seen = with_line(seen, line.start, line.kind);
        passed = lines::pass(s, line.behind, end, false);
    }
    let title = seen.title?;
    Some(Outline {
        end: passed.end,
        title,
        levels: seen.levels,
    })
}

// The line of the first heading that a shift takes past level 6, the title excepted, where there is one.
fn past_line(s: &[u8], shift: i32) -> usize
    requires { any_past shift (moved_kinds s.now) ≡ true }
    ensures { result ≡ 1 + first_past shift (moved_kinds s.now) }
{
    let mut titled = false;
    let mut cursor = lines::first();
    while let Some(line) = lines::next_line(s, cursor) {
        if level::goes_past(moved_kind(titled, line.kind), shift) {
            return line.behind.line;
        }
        titled = titled_by(titled, line.kind);
        cursor = line.behind;
    }
    cursor.line
}

// The shift that takes the shallowest of a prepared member's headings to level 2, the title excepted; or the first line whose heading goes past
// level 6 then, counted from 1.
pub fn shift_below(s: &[u8], levels: Option<Levels>) -> Result<i32, usize>
    requires { AreLevels (moved_kinds s.now) levels }
    ensures { ShiftBelow s.now result }
{
    let Some(found) = levels else {
        return Ok(0);
    };
    let shift = heading::level::shift_to(2, Some(found.shallowest));
    if level::is_past(found.deepest, shift) {
        return Err(past_line(s, shift));
    }
    Ok(shift)
}
