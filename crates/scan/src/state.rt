// What is open at a line of a scan.
ghost use Rattle.std.specs.Prelude.{◌≡◌};
ghost use Rattle.scan.specs.Scan.{begin as beginning, kind_at, after as after_kind, region_of};

use crate::event::{LineStart, Region};
use marker::line;
use marker::line::{Fragment, Kind, Line};
use text::part::Part;

// The opener of a region: its line, where its path stands, and whether it is a peer.
#[derive(Clone, Copy)]
pub struct Opener {
    pub marker: LineStart,
    pub path: Part,
    pub peer: bool,
}

#[derive(Clone, Copy)]
pub struct State {
    pub fence: bool,
    pub region: Option<Opener>,
}

// The state before the first line.
pub fn begin() -> State
    ensures { result ≡ beginning }
{
    State {
        fence: false,
        region: None,
    }
}

// What a line is.
#[tactic(auto, unfolding(crate::specs::Scan::kind_at))]
pub fn kind_at(state: State, line: Line) -> Kind
    ensures { result ≡ kind_at state line.entry.at line.entry.bytes.now }
{
    line::kind_of(line, state.fence, state.region.is_some())
}

// The state after line n, at place o and of a kind.
#[tactic(auto, unfolding(crate::specs::Scan::after))]
pub fn after(state: State, n: usize, o: usize, kind: Kind) -> State
    ensures { result ≡ after_kind state n o kind }
{
    match kind {
        Kind::Plain | Kind::Fault(_) | Kind::Spans(_) => state,
        Kind::Fence => State {
            fence: !state.fence,
            ..state
        },
        Kind::Closes => State {
            region: None,
            ..state
        },
        Kind::Opens(Fragment { path, peer }) => State {
            region: Some(Opener {
                marker: LineStart { line: n, at: o },
                path,
                peer,
            }),
            ..state
        },
    }
}

// The region that line n, at place o, closes.
pub fn closed(opener: Opener, n: usize, o: usize) -> Region
    ensures { result ≡ region_of n o opener }
{
    Region {
        opener: opener.marker,
        closer: LineStart { line: n, at: o },
        path: opener.path,
        peer: opener.peer,
    }
}
