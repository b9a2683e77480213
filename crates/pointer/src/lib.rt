#![tactic(auto)]

// What a link points to, as it is put: `#` and the anchor of a title, or a path at the repository. Each function answers None where the text would go over the limit.
ghost use Rattle.std.specs.Prelude.{◌≡◌, ◌∷◌, ◌++◌};
ghost use Rattle.text.specs.Pattern.{bytes};
ghost use Rattle.anchor.specs.Anchor.{slug};
ghost use Rattle.path.specs.Path.{resolve};
ghost use Rattle.link.specs.Target.{trim_slashes, outside};
ghost use Rattle.put.specs.Running.{Fits, Reads, Ran, text_of};

use link::target;
use put::Source;
use put::running::RunningText;

// `#` and the anchor of a title.
pub fn put_anchor(title: Source, running: &mut RunningText) -> Option<()>
    requires { Reads running.old title }
    ensures same_reference { running.new.work.ghost_name ≡ running.old.work.ghost_name }
    ensures ran { Ran (0x23 ∷ slug (text_of running.old title)) running.old running.new result }
{
    let mut cursor = anchor::start(running.bytes(title));
    running.put_bytes(b"#")?;
    while let Some((byte, behind)) = anchor::next(running.bytes(title), cursor) {
        running.put_bytes(&[byte])?;
        cursor = behind;
    }
    Some(())
}

// The repository's URL up to the path.
#[tactic(auto, using(put::proofs::RunningLaws::ran_then))]
fn put_root(url: &[u8], running: &mut RunningText) -> Option<()>
    requires { Fits running.old }
    ensures same_reference { running.new.work.ghost_name ≡ running.old.work.ghost_name }
    ensures ran { Ran (trim_slashes url.now ++ bytes "/blob/main/") running.old running.new result }
{
    let n = target::url_length(url);
    running.put_bytes(&url[..n])?;
    running.put_bytes(b"/blob/main/")
}

// A path in a directory, once it is resolved, however long it is. `RunningText::put_part` does not serve: it puts bytes as they stand, and these are found from the last to the first.
fn put_path(path: Source, dir: &[u8], running: &mut RunningText) -> Option<()>
    requires { Reads running.old path }
    ensures same_reference { running.new.work.ghost_name ≡ running.old.work.ghost_name }
    ensures ran { Ran (resolve dir.now (text_of running.old path)) running.old running.new result }
{
    let n = resolve::resolved_length(running.bytes(path), dir);
    if running.limit - running.at < n {
        return None;
    }
    let end = running.at + n;
    let a = path.start;
    let e = path.end;
    if path.work {
        resolve::put_resolved_down(running.work, a, e, dir, end);
    } else {
        resolve::put_resolved(&running.contents[a..e], dir, end, running.work);
    }
    running.at = end;
    Some(())
}

// A path that names no member, resolved, at the repository, and behind it the rest of its target, which is the fragment.
pub fn put_outside(
    url: &[u8],
    resolved: &[u8],
    rest: Source,
    running: &mut RunningText,
) -> Option<()>
    requires { Reads running.old rest }
    ensures same_reference { running.new.work.ghost_name ≡ running.old.work.ghost_name }
    ensures ran { Ran (outside url.now resolved.now ++ text_of running.old rest) running.old running.new result }
{
    put_root(url, running)?;
    running.put_bytes(resolved)?;
    running.put_part(rest, 0, rest.end - rest.start)
}

// The same for a path that is too long for a name, resolved where it is put.
pub fn put_far(
    url: &[u8],
    path: Source,
    rest: Source,
    dir: &[u8],
    running: &mut RunningText,
) -> Option<()>
    requires path { Reads running.old path }
    requires rest { Reads running.old rest }
    ensures same_reference { running.new.work.ghost_name ≡ running.old.work.ghost_name }
    ensures ran { Ran (outside url.now (resolve dir.now (text_of running.old path)) ++ text_of running.old rest) running.old running.new result }
{
    put_root(url, running)?;
    put_path(path, dir, running)?;
    running.put_part(rest, 0, rest.end - rest.start)
}
