// The links of a line, left to right.
ghost use Rattle.std.specs.Prelude.{◌≤◌, length};
ghost use Rattle.link.specs.Links.{FoundLink};

use text::part::Part;
use text::{bytes, pattern};

// The first link from a place on; None where there is none.
pub fn next_link(line: &[u8], from: usize) -> Option<Part>
    requires { from ≤ length line.now }
    ensures { FoundLink line.now from result }
{
    let start = from + pattern::find(&line[from..], b"](")? + 2;
    let end = bytes::find_byte(line, start, b')');
    (end < line.len()).then_some(Part { start, end })
}
