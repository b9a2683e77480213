#![tactic(auto)]

// What a link's target becomes: the anchor of a member's title, a kept fragment, or the path at the repository.
ghost use Rattle.std.specs.Prelude.{◌≡◌};
ghost use Rattle.path.specs.Path.{resolve};
ghost use Rattle.link.specs.Target.{placed, rewrite_target};
ghost use Rattle.put.specs.Running.{Reads, Ran, text_of};
ghost use Rattle.members.specs.Members.{title_source};
ghost use Rattle.target.specs.Titles.{titles_of, Stand, AreNamed, FoundMember, TitleIn, inside};

use link::target;
use members::{Assembly, Member};
use put::Source;
use put::running::RunningText;
use text::pattern;

// The last member of a name; None where no member has it.
#[tactic(auto, using(crate::proofs::TitleLaws::seeking))]
fn find_member(index: &[u8], members: &[Member], name: &[u8]) -> Option<Member>
    requires { AreNamed index.now members.now }
    ensures { FoundMember index.now members.now name.now result }
{
    for member in members.iter().rev() {
        if pattern::equals(name, &index[member.name.start..member.name.end]) {
            return Some(*member);
        }
    }
    None
}

// A target that names a member: the rest of it behind the path, or where there is none `#` and the anchor of the member's title.
#[tactic(auto, using(crate::proofs::TitleLaws::inside_or))]
fn put_inside(member: Member, rest: Source, running: &mut RunningText) -> Option<()>
    requires able { Reads running.old rest }
    requires title { TitleIn member × Reads running.old (title_source member) }
    ensures same_reference { running.new.work.ghost_name ≡ running.old.work.ghost_name }
    ensures ran { Ran (inside (text_of running.old rest) (text_of running.old (title_source member))) running.old running.new result }
{
    if rest.start < rest.end {
        return running.put_part(rest, 0, rest.end - rest.start);
    }
    pointer::put_anchor(member.title(), running)
}

// A target whose path is resolved, where it names a member or not.
#[tactic(auto, using(crate::proofs::TitleLaws::naming))]
fn put_named(
    assembly: Assembly,
    resolved: &[u8],
    rest: Source,
    running: &mut RunningText,
) -> Option<()>
    requires able { Reads running.old rest }
    requires stand { Stand running.old assembly }
    ensures same_reference { running.new.work.ghost_name ≡ running.old.work.ghost_name }
    ensures ran { Ran (placed assembly.entry.url.now resolved.now (text_of running.old rest) (titles_of running.old assembly.entry resolved.now)) running.old running.new result }
{
    match find_member(assembly.index, assembly.members, resolved) {
        Some(member) => put_inside(member, rest, running),
        None => pointer::put_outside(assembly.url, resolved, rest, running),
    }
}

// A target that is a path in a directory and the rest behind it. A name has at most 255 bytes, so that a longer path names no member.
#[tactic(auto, using(crate::proofs::TitleLaws::placing))]
fn put_placed(
    assembly: Assembly,
    path: Source,
    rest: Source,
    dir: &[u8],
    running: &mut RunningText,
) -> Option<()>
    requires path { Reads running.old path }
    requires rest { Reads running.old rest }
    requires stand { Stand running.old assembly }
    ensures same_reference { running.new.work.ghost_name ≡ running.old.work.ghost_name }
    ensures ran { Ran (placed assembly.entry.url.now (resolve dir.now (text_of running.old path)) (text_of running.old rest) (titles_of running.old assembly.entry (resolve dir.now (text_of running.old path)))) running.old running.new result }
{
    let mut resolved = [0; 256];
    match resolve::resolve_into(running.bytes(path), dir, &mut resolved) {
        Some(a) => put_named(assembly, &resolved[a..], rest, running),
        None => pointer::put_far(assembly.url, path, rest, dir, running),
    }
}

// What a target becomes in a text in a directory.
#[tactic(auto, using(crate::proofs::TitleLaws::becoming))]
pub fn put_target(
    assembly: Assembly,
    target: Source,
    dir: &[u8],
    running: &mut RunningText,
) -> Option<()>
    requires able { Reads running.old target }
    requires stand { Stand running.old assembly }
    ensures same_reference { running.new.work.ghost_name ≡ running.old.work.ghost_name }
    ensures ran { Ran (rewrite_target (titles_of running.old assembly.entry) assembly.entry.url.now dir.now (text_of running.old target)) running.old running.new result }
{
    let n = target.end - target.start;
    match target::read_target(running.bytes(target)) {
        None => running.put_part(target, 0, n),
        Some(e) => {
            let path = target.part(0, e);
            let rest = target.part(e, n);
            put_placed(assembly, path, rest, dir, running)
        }
    }
}
