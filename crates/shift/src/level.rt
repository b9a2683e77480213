// The shift of a text's headings.
ghost use Rattle.std.specs.Prelude.{true, ◌≡◌, ◌+◌, ◌≤◌, pos, ◌+ℤ◌};
ghost use Rattle.heading.specs.Level.{shallower, deeper, is_past, moved_to, goes_past, any_past, first_past};
ghost use Rattle.shift.specs.Levels.{HasLevel, kinds_in, top_in, deepest_in, AreLevels, ShiftTo};

use heading::walk::LineKind;
use heading::{level, walk};

// The shallowest level of headings, and the deepest.
#[derive(Clone, Copy)]
pub struct Levels {
    pub shallowest: usize,
    pub deepest: usize,
}

// The levels found before a line, with that line; None where there is no heading yet.
pub fn with_line(found: Option<Levels>, kind: LineKind) -> Option<Levels>
    ensures { (top_in result ≡ shallower (top_in found) kind) × (deepest_in result ≡ deeper (deepest_in found) kind) }
{
    let LineKind::Heading { level, .. } = kind else {
        return found;
    };
    Some(match found {
        Some(levels) => Levels {
            shallowest: level.min(levels.shallowest),
            deepest: levels.deepest.max(level),
        },
        None => Levels {
            shallowest: level,
            deepest: level,
        },
    })
}

// The levels of a text's headings, where it has any.
fn levels_of(s: &[u8]) -> Option<Levels>
    ensures { AreLevels (kinds_in s.now) result }
{
    let mut found = None;
    for kind in walk::kinds(s) {
        found = with_line(found, kind);
    }
    found
}

// Whether a shift takes a level past 1 to 6.
pub fn is_past(level: usize, shift: i32) -> bool
    requires { level ≤ 7 }
    ensures { result ≡ is_past (moved_to (pos level +ℤ shift)) }
{
    level::shifted(level, shift).is_none()
}

// Whether a shift takes a line's heading past them.
pub fn goes_past(kind: LineKind, shift: i32) -> bool
    requires { HasLevel kind }
    ensures { result ≡ goes_past shift kind }
{
    match kind {
        LineKind::Heading { level, .. } => is_past(level, shift),
        _ => false,
    }
}

// The first line whose heading a shift takes past them, where there is one.
fn past_line(s: &[u8], shift: i32) -> usize
    requires { any_past shift (kinds_in s.now) ≡ true }
    ensures { result ≡ 1 + first_past shift (kinds_in s.now) }
{
    let mut number = 1;
    for kind in walk::kinds(s) {
        if goes_past(kind, shift) {
            return number;
        }
        number += 1;
    }
    number
}

// The shift of a text's headings that takes the shallowest to the target; or the first line whose
// heading goes past level 6 then, counted from 1.
pub fn shift_of(s: &[u8], target: usize) -> Result<i32, usize>
    requires { (1 ≤ target) × (target ≤ 7) }
    ensures { ShiftTo s.now target result }
{
    let Some(found) = levels_of(s) else {
        return Ok(0);
    };
    let shift = level::shift_to(target, Some(found.shallowest));
    if is_past(found.deepest, shift) {
        return Err(past_line(s, shift));
    }
    Ok(shift)
}
