// The regions of a host one after the other, with its own headings.
ghost use Rattle.std.specs.Prelude.{◌≡◌, ◌≤◌, length};
ghost use Rattle.heading.specs.Level.{IsLevel};
ghost use Rattle.regions.specs.Regions.{target_level};
ghost use Rattle.regions.specs.Hosts.{start_cursor, HostAt, FoundHost};
ghost use Rattle.regions.specs.Own.{is_headless, CanTop, IsTop, opens_at, cursor_at};

use crate::own;
use crate::own::Own;
use heading::walk;
use heading::walk::WalkState;
use scan::event::Region;
use scan::region::Cursor;
use text::bytes;
use text::part::Part;

// Behind a region, or at the start of a host.
#[derive(Clone, Copy)]
pub struct HostCursor {
    // Where the line behind the closer starts, and how many lines stand before it.
    pub at: usize,
    pub line: usize,
    // From which byte on host lines are still to be appended: the LF before the closer's line.
    pub from: usize,
    // How many lines stand before the closer's line.
    pub before: usize,
    // The heading walk over the own lines so far, and the level of the last own heading.
    pub state: WalkState,
    pub above: Option<usize>,
    // Behind a region that no heading stands above: the shallowest own level of the host.
    pub top: Option<usize>,
}

// A region as a fill needs it: the opener's line, where that line ends (its LF or the text's end), the path's place, the target level, and whether 12 stands there.
#[derive(Clone, Copy)]
pub struct Opening {
    pub line: usize,
    pub end: usize,
    pub path: Part,
    pub target: usize,
    pub headless: bool,
}

// The cursor at the start of a host.
pub fn start() -> HostCursor
    ensures { result ≡ start_cursor }
{
    HostCursor {
        at: 0,
        line: 0,
        from: 0,
        before: 0,
        state: walk::begin(),
        above: None,
        top: None,
    }
}

// The level that a region's headings are shifted to, by the level above it and the shallowest of the host.
fn target(peer: bool, above: Option<usize>, top: Option<usize>) -> usize
    requires { IsLevel above × IsLevel top }
    ensures { (result ≡ target_level peer above top) × ((1 ≤ result) × (result ≤ 7)) }
{
    match above {
        Some(level) if peer => level,
        Some(level) => level + 1,
        None => top.unwrap_or(1),
    }
}

// Whether a peer has no own heading above it.
fn is_headless(peer: bool, above: Option<usize>) -> bool
    ensures { result ≡ is_headless peer above }
{
    peer && above.is_none()
}

// The shallowest own level of the host, where a region has nothing above it: found at the first region, and kept.
fn top_of(s: &[u8], c: HostCursor, d: Cursor, w: Own) -> Option<usize>
    requires { CanTop s.now c d w }
    ensures { IsTop s.now w.above result }
{
    if c.from != 0 {
        c.top
    } else if w.above.is_some() {
        None
    } else {
        own::rest_top(s, d, w)
    }
}

#[tactic(auto, unfolding(crate::specs::Own::opens_at))]
fn opens_at(s: &[u8], g: Region, above: Option<usize>, top: Option<usize>) -> Opening
    requires { (g.opener.at ≤ length s.now) × (IsLevel above × IsLevel top) }
    ensures { (result ≡ opens_at s.now g above top) × (((1 ≤ result.target) × (result.target ≤ 7)) × (result.end ≤ length s.now)) }
{
    Opening {
        line: g.opener.line,
        end: bytes::find_byte(s, g.opener.at, b'\n'),
        path: g.path,
        target: target(g.peer, above, top),
        headless: is_headless(g.peer, above),
    }
}

// The cursor behind a region, with the walk at its opener.
#[tactic(auto, unfolding(crate::specs::Own::cursor_at))]
fn behind(g: Region, d: Cursor, w: Own, top: Option<usize>) -> HostCursor
    requires { (1 ≤ g.closer.at) × (1 ≤ g.closer.line) }
    ensures { result ≡ cursor_at g d w top }
{
    HostCursor {
        at: d.at,
        line: d.line,
        from: g.closer.at - 1,
        before: g.closer.line - 1,
        state: w.state,
        above: w.above,
        top,
    }
}

// The next region of a host from a cursor on, and the cursor behind it; None where there is no further one.
#[tactic(auto, using(crate::proofs::HostLaws::hosts))]
pub fn next_host(s: &[u8], c: HostCursor) -> Option<(Opening, HostCursor)>
    requires { HostAt s.now c }
    ensures { FoundHost s.now c result }
{
    let cursor = Cursor {
        at: c.at,
        line: c.line,
    };
    let walked = Own {
        state: c.state,
        above: c.above,
        top: None,
    };
    let (region, next, walked) = own::next_own(s, cursor, walked)?;
    let top = top_of(s, c, next, walked);
    Some((
        opens_at(s, region, walked.above, top),
        behind(region, next, walked, top),
    ))
}
