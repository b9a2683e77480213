// Blank lines at a text's ends.
ghost use Rattle.shift.specs.Ends.{AreEnds};

use text::part::Part;
use text::{bytes, space};

// Where a text's lines start and end without the blank ones at both ends; one place where all are blank. An LF is a space byte, so
// the first line that is not blank starts behind the last LF before the first other byte.
pub fn blank_ends(s: &[u8]) -> Part
    ensures { AreEnds s.now result.start result.end }
{
    let k = space::kept(s);
    if k == 0 {
        return Part { start: 0, end: 0 };
    }
    let i = space::lead(s);
    Part {
        start: bytes::after_last(&s[..i], b'\n'),
        end: bytes::find_byte(s, k, b'\n'),
    }
}
