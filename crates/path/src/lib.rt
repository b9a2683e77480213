#![tactic(auto)]

// The parts of a path in a directory, and where a name has them. They are found from the last to the first, so that `..` comes before the part
// that it drops, and no buffer is needed.
ghost use Rattle.std.specs.Prelude.{◌≡◌, suc, ◌+◌, ◌≤◌, length, take};
ghost use Rattle.path.specs.Path.{parent_dir, goes};
ghost use Rattle.path.specs.Backward.{Back, LastPart, Within, in_dir, from_end, Bounded, piece, FoundPart};

use text::{bytes, pattern};

// A part that is kept, by its ends, or none and how many parts are still to be dropped. No Result, since neither is a failure.
#[derive(Clone, Copy)]
pub enum BackPart {
    Kept { start: usize, end: usize },
    Above(usize),
}

// What is left of a path, seen from its end: the parts of the directory, or of the path with the directory before it, that stand before a part that
// starts at `left`. So `left` is a place and no Option: 0 where the text's first part was read, and one more than the text's length at first.
#[derive(Clone, Copy)]
pub struct PathCursor {
    pub inside: bool,
    pub left: usize,
}

// A part that is kept, by what is left before it and where it ends; or none.
#[derive(Clone, Copy)]
pub struct PathPart {
    pub before: PathCursor,
    pub end: usize,
}

// How long the directory of a file is.
pub fn parent_dir(name: &[u8]) -> usize
    ensures { (take result name.now ≡ parent_dir name.now) × (result ≤ length name.now) }
{
    let e = bytes::after_last(name, b'/');
    if e == 0 {
        return 0;
    }
    e - 1
}

// Whether a part is empty or `.`.
fn goes_out(part: &[u8]) -> bool
    ensures { result ≡ goes part.now }
{
    if part.len() == 0 {
        return true;
    }
    pattern::equals(part, b".")
}

// The last part kept of a text before a part that starts at `left`, where `up` parts are still to be dropped.
fn back(s: &[u8], left: usize, up: usize) -> BackPart
    requires { (left ≤ suc (length s.now)) × (up + left ≤ 0x1_0000_0000_0000_0000) }
    ensures { Back s.now left up result }
{
    let mut left = left;
    let mut up = up;
    while let Some(end) = left.checked_sub(1) {
        let start = bytes::after_last(&s[..end], b'/');
        let part = &s[start..end];
        left = start;
        if !goes_out(part) {
            if pattern::equals(part, b"..") {
                up += 1;
            } else {
                let Some(fewer) = up.checked_sub(1) else {
                    return BackPart::Kept { start, end };
                };
                up = fewer;
            }
        }
    }
    BackPart::Above(up)
}

fn in_dir(found: BackPart) -> Option<PathPart>
    ensures { result ≡ in_dir found }
{
    match found {
        BackPart::Kept { start, end } => Some(PathPart {
            before: PathCursor {
                inside: true,
                left: start,
            },
            end,
        }),
        BackPart::Above(_) => None,
    }
}

// The last part kept of what is left; None where none is.
pub fn last_part(path: &[u8], dir: &[u8], from: PathCursor) -> Option<PathPart>
    requires { Within dir.now path.now from }
    ensures { LastPart dir.now path.now from result }
{
    if from.inside {
        return in_dir(back(dir, from.left, 0));
    }
    match back(path, from.left, 0) {
        BackPart::Kept { start, end } => Some(PathPart {
            before: PathCursor {
                inside: false,
                left: start,
            },
            end,
        }),
        BackPart::Above(up) => {
            if pattern::starts_with(path, b"/") {
                return None;
            }
            in_dir(back(dir, dir.len() + 1, up))
        }
    }
}

// All of a path with the directory before it.
pub fn from_end(path: &[u8]) -> PathCursor
    ensures { result ≡ from_end path.now }
{
    PathCursor {
        inside: false,
        left: path.len() + 1,
    }
}

fn find_end(part: &[u8], name: &[u8]) -> Option<usize>
    ensures { FoundPart part.now name.now (length name.now) result }
{
    if pattern::ends_with(name, part) {
        return Some(name.len() - part.len());
    }
    None
}

// Where a part starts in a name that has it directly before a place, with a `/` behind it unless the place is the name's end.
fn find_part(part: &[u8], name: &[u8], at: usize) -> Option<usize>
    requires { at ≤ length name.now }
    ensures { FoundPart part.now name.now at result }
{
    if at == name.len() {
        return find_end(part, name);
    }
    if at == 0 {
        return None;
    }
    let e = at - 1;
    if name[e] != b'/' {
        return None;
    }
    find_end(part, &name[..e])
}

// The same for a part kept of a path or of the directory before it.
pub fn find_kept(
    path: &[u8],
    dir: &[u8],
    before: PathCursor,
    end: usize,
    name: &[u8],
    at: usize,
) -> Option<usize>
    requires { Bounded dir.now path.now before end × (at ≤ length name.now) }
    ensures { FoundPart (piece dir.now path.now before end) name.now at result }
{
    let start = before.left;
    if before.inside {
        return find_part(&dir[start..end], name, at);
    }
    find_part(&path[start..end], name, at)
}
