// Link targets and what they become.
ghost use Rattle.std.specs.Prelude.{◌≡◌, ◌≤◌, length, take, drop};
ghost use Rattle.link.specs.Target.{is_right, target_of, trim_slashes, anchor_self};

use text::{bytes, pattern};

// A file that is taken into a host: the file's directory and the host's name.
#[derive(Clone, Copy)]
pub struct Embedding<'a> {
    pub dir: &'a [u8],
    pub host: &'a [u8],
}

// Whether a target is a URL, a mail address or an anchor.
fn is_right(target: &[u8]) -> bool
    ensures { result ≡ is_right target.now }
{
    pattern::starts_with(target, b"#")
        || pattern::contains(target, b"://")
        || pattern::starts_with(target, b"mailto:")
}

// Where the path of a target ends, at its first `#` or its end; None for a target that stays as it is: a URL, a mail address, an anchor or an empty one.
#[tactic(auto, unfolding(crate::specs::Target::target_of))]
pub fn read_target(target: &[u8]) -> Option<usize>
    ensures { result ≡ target_of target.now }
{
    if is_right(target) || target.is_empty() {
        return None;
    }
    Some(bytes::find_byte(target, 0, b'#'))
}

// From which place on a target's bytes stay in a file that is taken into a host.
pub fn anchor_self(target: &[u8], embedding: Embedding) -> usize
    ensures { (drop result target.now ≡ anchor_self embedding.entry.host.now embedding.entry.dir.now target.now) × (result ≤ length target.now) }
{
    match read_target(target) {
        Some(end)
            if end < target.len()
                && resolve::resolves_to(&target[..end], embedding.dir, embedding.host) => end,
        _ => 0,
    }
}

// How long a URL is without trailing `/`.
pub fn url_length(url: &[u8]) -> usize
    ensures { (take result url.now ≡ trim_slashes url.now) × (result ≤ length url.now) }
{
    url.len() - url.iter().rev().take_while(|b| **b == b'/').count()
}
