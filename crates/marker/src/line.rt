// What a line is to the marker scan.
ghost use Rattle.std.specs.Prelude.{◌≡◌, ◌+◌, ◌≤◌, ◌<◌, ◌^◌, length, take, drop, Some};
ghost use Rattle.text.specs.Pattern.{find as find_in};
ghost use Rattle.marker.specs.Marker.{path_of, alone_of, fragment_kind, marked_kind, kind_of, OPEN};

use crate::problem::Problem;
use text::part::Part;
use text::{pattern, space};

// The length of `<!--[fragment:`.
const OPEN_FRAGMENT: usize = 14;

// The length of `]-->`.
const SPEC_END: usize = 4;

// The length of `:peer`.
const PEER: usize = 5;

// A line, or a part of one: the place of its first byte, and its bytes.
#[derive(Clone, Copy)]
pub struct Line<'a> {
    pub at: usize,
    pub bytes: &'a [u8],
    pub ghost fits: { at + length bytes.now < 2 ^ 64 },
}

impl<'a> Line<'a> {
    // What is left of it from byte i on.
    #[tactic(auto, using(crate::proofs::Within::lengths))]
    pub fn from(self, i: usize) -> Line<'a>
        requires { i ≤ length self.bytes.now }
        ensures { (result.at ≡ self.entry.at + i) × (result.bytes.now ≡ drop i self.entry.bytes.now) }
    {
        Line {
            at: self.at + i,
            bytes: &self.bytes[i..],
        }
    }

    // What stands before byte i.
    #[tactic(auto, using(crate::proofs::Within::lengths))]
    pub fn to(self, i: usize) -> Line<'a>
        requires { i ≤ length self.bytes.now }
        ensures { (result.at ≡ self.entry.at) × (result.bytes.now ≡ take i self.entry.bytes.now) }
    {
        Line {
            at: self.at,
            bytes: &self.bytes[..i],
        }
    }
}

// A line that is alone a fragment marker: where its path stands, and whether it is a peer.
#[derive(Clone, Copy)]
pub struct Fragment {
    pub path: Part,
    pub peer: bool,
}

#[derive(Clone, Copy)]
pub enum Kind {
    // No marker.
    Plain,
    // Opens or closes a fence.
    Fence,
    Fault(Problem),
    // Closes the open region.
    Closes,
    // Opens a region.
    Opens(Fragment),
    // Spans are to be read from the first marker on, so many bytes into the line.
    Spans(usize),
}

// A fragment of a path p; None where p is no path.
#[tactic(auto, unfolding(crate::specs::Marker::path_of))]
fn path_at(p: Line, peer: bool) -> Option<Fragment>
    ensures { result ≡ path_of p.entry.at peer p.entry.bytes.now }
{
    if p.bytes.is_empty()
        || pattern::contains(p.bytes, b"]-->")
        || pattern::contains(p.bytes, b":")
    {
        return None;
    }
    let path = Part {
        start: p.at,
        end: p.at + p.bytes.len(),
    };
    Some(Fragment { path, peer })
}

// The path that a trimmed line names, and its placement, where the whole line is a fragment marker.
#[tactic(auto, using(crate::proofs::Within::lengths), unfolding(crate::specs::Marker::alone_of, crate::specs::Marker::rest_of, crate::specs::Marker::named_of))]
fn fragment_spec(line: Line) -> Option<Fragment>
    ensures { result ≡ alone_of line.entry.at line.entry.bytes.now }
{
    if !pattern::starts_with(line.bytes, b"<!--[fragment:") {
        return None;
    }
    let rest = line.from(OPEN_FRAGMENT);
    if !pattern::ends_with(rest.bytes, b"]-->") {
        return None;
    }
    let spec = rest.to(rest.bytes.len() - SPEC_END);
    if pattern::ends_with(spec.bytes, b":peer") {
        return path_at(spec.to(spec.bytes.len() - PEER), true);
    }
    path_at(spec, false)
}

// What a line is whose first marker stands at place i of it, outside a fence, where it closes no region.
#[tactic(auto, using(crate::proofs::Within::lengths), unfolding(crate::specs::Marker::fragment_kind))]
fn fragment_kind(fragment: Option<Fragment>, line: Line, i: usize, inside: bool) -> Kind
    requires { find_in OPEN line.bytes.now ≡ Some i }
    ensures { result ≡ fragment_kind inside i line.entry.bytes.now fragment }
{
    match fragment {
        Some(_) if inside => Kind::Fault(Problem::NestedRegion),
        Some(opened) => Kind::Opens(opened),
        None if pattern::contains(line.from(i).bytes, b"<!--[fragment:") => {
            Kind::Fault(Problem::FragmentMarker)
        }
        None => Kind::Spans(i),
    }
}

// What a line is whose first marker stands at place i of it.
#[tactic(auto, unfolding(crate::specs::Marker::marked_kind, crate::specs::Marker::fragment_of, text::specs::Space::trim, text::specs::Space::trim_end, text::specs::Space::trim_start))]
fn marked_kind(line: Line, i: usize, fence: bool, inside: bool) -> Kind
    requires { find_in OPEN line.bytes.now ≡ Some i }
    ensures { result ≡ marked_kind fence inside line.entry.at line.entry.bytes.now (find_in OPEN line.entry.bytes.now) }
{
    if fence {
        return Kind::Fault(Problem::MarkerInFence);
    }
    let rest = line.from(space::lead(line.bytes));
    let trimmed = rest.to(space::kept(rest.bytes));
    if inside && pattern::equals(trimmed.bytes, b"<!--[/]-->") {
        return Kind::Closes;
    }
    fragment_kind(fragment_spec(trimmed), line, i, inside)
}

// What a line is, where a fence or a region may be open above it.
#[tactic(auto, unfolding(crate::specs::Marker::kind_of, crate::specs::Marker::marked_kind))]
pub fn kind_of(line: Line, fence: bool, inside: bool) -> Kind
    ensures { result ≡ kind_of fence inside line.entry.at line.entry.bytes.now }
{
    if fence::is_fence(line.bytes) {
        return Kind::Fence;
    }
    match pattern::find(line.bytes, b"<!--[") {
        Some(i) => marked_kind(line, i, fence, inside),
        None => Kind::Plain,
    }
}
