#![tactic(auto)]

// A line's links rewritten as it is put behind the text so far.
ghost use Rattle.std.specs.Prelude.{◌≡◌};
ghost use Rattle.link.specs.Links.{relink};
ghost use Rattle.link.specs.Target.{rewrite_target};
ghost use Rattle.put.specs.Running.{Reads, Ran, text_of};
ghost use Rattle.target.specs.Titles.{titles_of, Stand};

use link::links;
use members::Assembly;
use put::Source;
use put::running::RunningText;

// A source with each link's target as it becomes in a directory.
#[tactic(auto, using(crate::proofs::LinkedLaws::linking))]
pub fn put_links(
    assembly: Assembly,
    source: Source,
    dir: &[u8],
    running: &mut RunningText,
) -> Option<()>
    requires able { Reads running.old source }
    requires stand { Stand running.old assembly }
    ensures same_reference { running.new.work.ghost_name ≡ running.old.work.ghost_name }
    ensures ran { Ran (relink (rewrite_target (titles_of running.old assembly.entry) assembly.entry.url.now dir.now) (text_of running.old source)) running.old running.new result }
{
    let mut i = 0;
    while let Some(link) = links::next_link(running.bytes(source), i) {
        running.put_part(source, i, link.start)?;
        let target = source.part(link.start, link.end);
        target::put_target(assembly, target, dir, running)?;
        i = link.end;
    }
    running.put_part(source, i, source.end - source.start)
}
