#![tactic(auto)]

// Paths in a directory, resolved: how long they are, written into a buffer, and compared with a name. Their parts are found from the last to
// the first.
ghost use Rattle.std.specs.Prelude.{◌≡◌, ◌+◌, ◌-◌, ◌≤◌, ◌<◌, [], length, drop};
ghost use Rattle.std.proofs.lemmas.List.Edits.{sets};
ghost use Rattle.text.specs.Bytes.{part};
ghost use Rattle.text.specs.Pattern.{equals as equals_to};
ghost use Rattle.path.specs.Path.{resolve};
ghost use Rattle.path.specs.Backward.{Bounded, piece};
ghost use Rattle.resolve.specs.Resolve.{Resolves};
ghost use Rattle.resolve.specs.Joined.{lengthened, closed, Closed};

use path::{PathCursor, PathPart};

// How long joined parts are with another one of k bytes.
fn lengthen(n: usize, k: usize) -> usize
    requires { n + k < 0xFFFF_FFFF_FFFF_FFFF }
    ensures { result ≡ lengthened n k }
{
    if n == 0 { k } else { n + 1 + k }
}

// How long a path in a directory is once it is resolved.
pub fn resolved_length(path: &[u8], dir: &[u8]) -> usize
    ensures { result ≡ length (resolve dir.now path.now) }
{
    let mut n = 0;
    let mut c = path::from_end(path);
    while let Some(PathPart { before, end }) = path::last_part(path, dir, c) {
        n = lengthen(n, end - before.left);
        c = before;
    }
    n
}

// Writes a `/` before a place unless that is the end of all, and answers where what stands before it ends.
fn put_slash(at: usize, end: usize, out: &mut [u8]) -> usize
    requires { (length (closed at end []) ≤ at) × (at ≤ length out.old) }
    ensures { Closed [] at end out.old result out.new }
{
    if at == end {
        return at;
    }
    out[at - 1] = b'/';
    at - 1
}

// Writes a part so that it ends at a place, with a `/` behind it unless that is the end of all, and answers where it starts.
fn put_part(part: &[u8], at: usize, end: usize, out: &mut [u8]) -> usize
    requires { (length (closed at end part.now) ≤ at) × (at ≤ length out.old) }
    ensures { Closed part.now at end out.old result out.new }
{
    let e = put_slash(at, end, out);
    let a = e - part.len();
    buffer::copy(part, out, a);
    a
}

// The same for a part kept of a path or of the directory before it.
fn put_kept(
    path: &[u8],
    dir: &[u8],
    before: PathCursor,
    e: usize,
    at: usize,
    end: usize,
    out: &mut [u8],
) -> usize
    requires { Bounded dir.now path.now before e × ((length (closed at end (piece dir.now path.now before e)) ≤ at) × (at ≤ length out.old)) }
    ensures { Closed (piece dir.now path.now before e) at end out.old result out.new }
{
    let holder = if before.inside { dir } else { path };
    put_part(&holder[before.left..e], at, end, out)
}

// Writes a path in a directory, once it is resolved, so that it ends at a place.
pub fn put_resolved(path: &[u8], dir: &[u8], end: usize, out: &mut [u8])
    requires { (length (resolve dir.now path.now) ≤ end) × (end ≤ length out.old) }
    ensures { out.new ≡ sets out.old (end - length (resolve dir.now path.now)) (resolve dir.now path.now) }
{
    let mut at = end;
    let mut c = path::from_end(path);
    while let Some(PathPart { before, end: e }) = path::last_part(path, dir, c) {
        at = put_kept(path, dir, before, e, at, end, out);
        c = before;
    }
}

// Writes a part of a buffer so that it ends at an earlier place, as `put_part` does.
fn put_part_down(work: &mut [u8], from: usize, to: usize, at: usize, end: usize) -> usize
    requires { (length (closed at end (part from to work.old)) ≤ at) × ((at ≤ from) × ((from ≤ to) × (to ≤ length work.old))) }
    ensures { Closed (part from to work.old) at end work.old result work.new }
{
    let e = put_slash(at, end, work);
    let a = e - (to - from);
    buffer::copy_down(work, from, to, a);
    a
}

// The same for a part kept of a path that stands in the buffer from a place on, or of the directory before it.
fn put_kept_down(
    work: &mut [u8],
    from: usize,
    dir: &[u8],
    before: PathCursor,
    e: usize,
    at: usize,
    end: usize,
) -> usize
    requires { Bounded dir.now (drop from work.old) before e × ((length (closed at end (piece dir.now (drop from work.old) before e)) ≤ at) × ((at ≤ from) × (from ≤ length work.old))) }
    ensures { Closed (piece dir.now (drop from work.old) before e) at end work.old result work.new }
{
    if before.inside {
        return put_part(&dir[before.left..e], at, end, work);
    }
    put_part_down(work, from + before.left, from + e, at, end)
}

// The same as `put_resolved` where the path stands in the buffer itself, from a place up to another, behind what is written.
pub fn put_resolved_down(work: &mut [u8], from: usize, to: usize, dir: &[u8], end: usize)
    requires { (length (resolve dir.now (part from to work.old)) ≤ end) × ((end ≤ from) × ((from ≤ to) × (to ≤ length work.old))) }
    ensures { work.new ≡ sets work.old (end - length (resolve dir.now (part from to work.old))) (resolve dir.now (part from to work.old)) }
{
    let mut at = end;
    let mut c = path::from_end(&work[from..to]);
    while let Some(PathPart { before, end: e }) = path::last_part(&work[from..to], dir, c) {
        at = put_kept_down(work, from, dir, before, e, at, end);
        c = before;
    }
}

// Writes a path in a directory, once it is resolved, so that it ends at a buffer's end, where the buffer holds it.
pub fn resolve_into(path: &[u8], dir: &[u8], out: &mut [u8]) -> Option<usize>
    ensures { Resolves dir.now path.now out.new result }
{
    let end = out.len();
    let mut at = end;
    let mut c = path::from_end(path);
    while let Some(PathPart { before, end: e }) = path::last_part(path, dir, c) {
        if end < lengthen(end - at, e - before.left) {
            return None;
        }
        at = put_kept(path, dir, before, e, at, end, out);
        c = before;
    }
    Some(at)
}

// Whether a path in a directory, once it is resolved, is this name.
pub fn resolves_to(path: &[u8], dir: &[u8], name: &[u8]) -> bool
    ensures { result ≡ equals_to name.now (resolve dir.now path.now) }
{
    let mut at = name.len();
    let mut c = path::from_end(path);
    while let Some(PathPart { before, end }) = path::last_part(path, dir, c) {
        let Some(start) = path::find_kept(path, dir, before, end, name, at) else {
            return false;
        };
        at = start;
        c = before;
    }
    at == 0
}
