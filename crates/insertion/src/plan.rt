// What comes of a text before any of its lines is put.
ghost use Rattle.std.specs.Prelude.{◌≤◌};
ghost use Rattle.insertion.specs.Plans.{PlanOf};

use shift::{ends, level};

// The lines to put, by where they start and end in the text, and their shift.
#[derive(Clone, Copy)]
pub struct Plan {
    pub start: usize,
    pub end: usize,
    pub shift: i32,
}

// The plan of a text under a target level; None where it is blank and nothing is put. The error is the first line to be put whose heading would go past level 6, counted from 1.
pub fn plan_of(s: &[u8], target: usize) -> Result<Option<Plan>, usize>
    requires { (1 ≤ target) × (target ≤ 7) }
    ensures { PlanOf s.now target result }
{
    let ends = ends::blank_ends(s);
    let start = ends.start;
    let end = ends.end;
    if start == end {
        return Ok(None);
    }
    match level::shift_of(&s[start..end], target) {
        Ok(shift) => Ok(Some(Plan { start, end, shift })),
        Err(line) => Err(line),
    }
}
