// A host's own lines: the heading walk over them, up to the next region and over all that is left.
ghost use Rattle.std.specs.Prelude.{◌≡◌, ◌+◌};
ghost use Rattle.text.specs.Lines.{pieces};
ghost use Rattle.regions.specs.Regions.{newer as newer_of};
ghost use Rattle.regions.specs.Hosts.{LineFrom, blanked_at};
ghost use Rattle.regions.specs.Own.{own_step, own_after, FoundOwn};

use heading::walk::{LineKind, WalkState};
use heading::{level, walk};
use scan::event::Region;
use scan::region;
use scan::region::Cursor;
use text::lines;

// The heading walk behind lines: its state, the level of the last heading, and the shallowest level.
#[derive(Clone, Copy)]
pub struct Own {
    pub state: WalkState,
    pub above: Option<usize>,
    pub top: Option<usize>,
}

fn newer(above: Option<usize>, kind: LineKind) -> Option<usize>
    ensures { result ≡ newer_of above kind }
{
    match kind {
        LineKind::Heading { level, .. } => Some(level),
        LineKind::Quoted | LineKind::Other => above,
    }
}

#[tactic(auto, unfolding(crate::specs::Own::own_step))]
fn own_step(w: Own, line: &[u8]) -> Own
    ensures { result ≡ own_step w line.now }
{
    let step = walk::step(w.state, line);
    Own {
        state: step.state,
        above: newer(w.above, step.kind),
        top: level::shallower(w.top, step.kind),
    }
}

// The walk over the lines of s.
#[tactic(auto, unfolding(crate::specs::Own::own_after))]
fn own_after(s: &[u8], w: Own) -> Own
    ensures { result ≡ own_after w (pieces s.now) }
{
    let mut own = w;
    for line in lines::pieces(s) {
        own = own_step(own, line);
    }
    own
}

// The next whole region from a cursor on, the cursor at the line behind its closer, and the walk over the own lines before it; None where there is no such region.
#[tactic(auto, using(crate::proofs::CursorLaws::cursors))]
pub fn next_own(s: &[u8], c: Cursor, w: Own) -> Option<(Region, Cursor, Own)>
    requires { LineFrom s.now c }
    ensures { FoundOwn s.now c w result }
{
    let (region, _) = region::next_region(s, c)?;
    let own = own_after(&s[c.at..region.opener.at], w);
    let closer = lines::line(s, region.closer.at, region.closer.at);
    let behind = Cursor {
        at: closer.next,
        line: region.closer.line,
    };
    Some((region, behind, own))
}

// The shallowest level of the own lines from a cursor on, with those before it walked; None where there is none.
#[tactic(auto, using(crate::proofs::CursorLaws::cursors))]
pub fn rest_top(s: &[u8], from: Cursor, w: Own) -> Option<usize>
    requires { LineFrom s.now from }
    ensures { result ≡ (own_after w (blanked_at s.now from)).top }
{
    let mut cursor = from;
    let mut own = w;
    while let Some((_, behind, walked)) = next_own(s, cursor, own) {
        cursor = behind;
        own = walked;
    }
    own_after(&s[cursor.at..], own).top
}
