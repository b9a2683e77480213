// The whole regions of a text, one after the other.
ghost use Rattle.std.specs.Prelude.{◌≡◌, ◌≤◌, length};
ghost use Rattle.scan.specs.Regions.{FoundRegion, closed_at};

use crate::event::Region;
use crate::state::Opener;
use crate::{seek, state};
use marker::line::Kind;

// Where a line starts outside regions and fences, and how many lines stand before it.
#[derive(Clone, Copy)]
pub struct Cursor {
    pub at: usize,
    pub line: usize,
}

// The region that line n, at place o, closes, and the cursor at the next line; None where no region is open.
fn closed_at(region: Option<Opener>, n: usize, o: usize, next: usize) -> Option<(Region, Cursor)>
    ensures { result ≡ closed_at region n o next }
{
    let closed = state::closed(region?, n, o);
    Some((closed, Cursor { at: next, line: n }))
}

// The next whole region from a cursor on, and the cursor at the line behind its closer; None where there is no such region.
pub fn next_region(s: &[u8], from: Cursor) -> Option<(Region, Cursor)>
    requires { (from.at ≤ length s.now) × (from.line ≤ from.at) }
    ensures { FoundRegion s.now from result }
{
    let mut state = state::begin();
    let mut cursor = from;
    while let Some(line) = seek::next_line(s, cursor.at, cursor.line) {
        let kind = state::kind_at(state, line.within(s));
        if let Kind::Closes = kind {
            return closed_at(state.region, line.number, line.start, line.next);
        }
        state = state::after(state, line.number, line.start, kind);
        cursor = Cursor {
            at: line.next,
            line: line.number,
        };
    }
    None
}
