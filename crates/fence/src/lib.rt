#![tactic(auto)]

// Fences of document 01: the test of a line that the marker scan and the heading walk share.
ghost use Rattle.std.specs.Prelude.{◌≡◌};
ghost use Rattle.fence.specs.Fences.{opener, is_fence};

use text::{pattern, space};

// A fence, by its three bytes.
#[derive(Clone, Copy, PartialEq, Eq)]
pub enum Fence {
    Ticks,
    Tildes,
}

// The fence that a line opens, where it opens one.
#[tactic(auto, using(text::proofs::BytesLaws::rest), unfolding(crate::specs::Fences::opener, text::specs::Space::trim_start))]
pub fn opening_fence(line: &[u8]) -> Option<Fence>
    ensures { result ≡ opener line.now }
{
    let text = &line[space::lead(line)..];
    if pattern::starts_with(text, b"```") {
        Some(Fence::Ticks)
    } else if pattern::starts_with(text, b"~~~") {
        Some(Fence::Tildes)
    } else {
        None
    }
}

// Whether a line toggles the fence of the marker scan.
#[tactic(auto, using(crate::proofs::FenceLaws::fence_opener))]
pub fn is_fence(line: &[u8]) -> bool
    ensures { result ≡ is_fence line.now }
{
    opening_fence(line).is_some()
}
