#![tactic(auto)]

// A member's lines put behind the text so far: headings moved but for the title, links outside fences rewritten.
ghost use Rattle.std.specs.Prelude.{◌≡◌, ◌≤◌};
ghost use Rattle.link.specs.Target.{rewrite_target};
ghost use Rattle.put.specs.Running.{Reads, Ran, text_of};
ghost use Rattle.target.specs.Titles.{titles_of, Stand};
ghost use Rattle.emission.specs.Emission.{emitted_text};

use member::lines;
use member::lines::KeptLine;
use members::Assembly;
use put::Source;
use put::running::RunningText;

// The lines that a member keeps of a source, its file being in a directory. Those that neither change nor have a link are put as a block. None: they would go over the limit.
#[tactic(auto, using(crate::proofs::PuttingLaws::putting))]
pub fn put_lines(
    assembly: Assembly,
    source: Source,
    dir: &[u8],
    shift: i32,
    running: &mut RunningText,
) -> Option<()>
    requires able { Reads running.old source }
    requires stand { Stand running.old assembly }
    ensures same_reference { running.new.work.ghost_name ≡ running.old.work.ghost_name }
    ensures ran { Ran (emitted_text (rewrite_target (titles_of running.old assembly.entry) assembly.entry.url.now dir.now) shift (text_of running.old source)) running.old running.new result }
{
    let mut cursor = lines::first();
    let mut titled = false;
    // A `loop`: a block is put before each line and behind the last one too, which a `while let` would write down twice.
    loop {
        let passed = lines::pass(running.bytes(source), cursor, 0, true);
        let next = passed.behind;
        emitted::put_block(source, cursor, next, running)?;
        let Some(line) = lines::next_line(running.bytes(source), next) else {
            return Some(());
        };
        let kind = outline::moved_kind(titled, line.kind);
        let moved = KeptLine { kind, ..line };
        emitted::put_next(assembly, source, moved, next.line, shift, dir, running)?;
        cursor = line.behind;
        titled = outline::titled_by(titled, line.kind);
    }
}
