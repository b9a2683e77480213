// Levels: the shallowest, the shift, and the line that a heading becomes.
ghost use Rattle.std.specs.Prelude.{◌≡◌, ◌+◌, ◌≤◌, pos, ◌+ℤ◌, length, None};
ghost use Rattle.std.proofs.lemmas.List.Edits.{sets};
ghost use Rattle.std.specs.Int.Signed.{mag};
ghost use Rattle.text.specs.Lines.{pieces};
ghost use Rattle.heading.specs.Walk.{walk_begin, kinds_from};
ghost use Rattle.heading.specs.Level.{least as least_of, shallower as shallower_of, shallowest_of, shift_of, moved_to, heading_line, IsLevel};

use crate::walk;
use crate::walk::LineKind;

fn least(level: usize, found: Option<usize>) -> Option<usize>
    ensures { result ≡ least_of level found }
{
    Some(found.map_or(level, |shallowest| level.min(shallowest)))
}

// The shallower of what was found before a line and that line. Along the walk it stays a level of 1 to 6 (the law `level-step`).
pub fn shallower(found: Option<usize>, kind: LineKind) -> Option<usize>
    ensures { result ≡ shallower_of found kind }
{
    match kind {
        LineKind::Heading { level, .. } => least(level, found),
        _ => found,
    }
}

// The shallowest level of a text's headings; None where it has none.
#[tactic(auto, unfolding(crate::specs::Level::shallowest_of))]
pub fn shallowest(s: &[u8]) -> Option<usize>
    ensures value { result ≡ shallowest_of None (kinds_from walk_begin (pieces s.now)) }
    ensures level { IsLevel result }
{
    let mut found = None;
    for kind in walk::kinds(s) {
        found = shallower(found, kind);
    }
    found
}

// The shift that takes the shallowest heading to the target.
pub fn shift_to(target: usize, found: Option<usize>) -> i32
    requires { (target ≤ 7) × IsLevel found }
    ensures { (result ≡ shift_of target found) × (mag result ≤ 7) }
{
    match found {
        Some(n) => target as i32 - n as i32,
        None => 0,
    }
}

// The level with the shift added, where that is 1 to 6. A sum that an i32 cannot hold is past them too.
pub fn shifted(level: usize, shift: i32) -> Option<usize>
    requires { level ≤ 7 }
    ensures { result ≡ moved_to (pos level +ℤ shift) }
{
    let sum = (level as i32).saturating_add(shift);
    if (1..=6).contains(&sum) {
        Some(sum as usize)
    } else {
        None
    }
}

// Writes a heading line at a place of a buffer, and answers the place after it.
pub fn put_heading(out: &mut [u8], at: usize, level: usize, text: &[u8]) -> usize
    requires { at + (level + 1 + length text.now) ≤ length out.old }
    ensures { (out.new ≡ sets out.old at (heading_line level text.now)) × (result ≡ at + (level + 1 + length text.now)) }
{
    let end = at + level;
    out[at..end].fill(b'#');
    out[end] = b' ';
    buffer::copy(text, out, end + 1)
}
