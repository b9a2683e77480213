#![tactic(auto)]

// A line of a member as it is emitted, or a block of lines as they stand, put behind the text so far. Each function answers None where the text would go over the limit.
ghost use Rattle.std.specs.Prelude.{◌≡◌, ◌++◌, suc, ◌-◌, ◌≤◌, ◌<◌};
ghost use Rattle.link.specs.Target.{rewrite_target};
ghost use Rattle.put.specs.Running.{Reads, Ran, text_of};
ghost use Rattle.target.specs.Titles.{titles_of, Stand};
ghost use Rattle.emitted.specs.Emitted.{emitted_line, break_before, block_text, line_of, LineIn};

use heading::walk::LineKind;
use member::lines::{KeptLine, LineCursor};
use members::Assembly;
use put::Source;
use put::line::new_text;
use put::running::RunningText;

// A line of a source: a quoted one as it is, any other moved and with its links rewritten.
#[tactic(auto, using(crate::proofs::EmittedLaws::emitting))]
fn put_line(
    assembly: Assembly,
    source: Source,
    line: KeptLine,
    shift: i32,
    dir: &[u8],
    running: &mut RunningText,
) -> Option<()>
    requires able { Reads running.old source }
    requires stand { Stand running.old assembly }
    requires line_in { LineIn source line }
    ensures same_reference { running.new.work.ghost_name ≡ running.old.work.ghost_name }
    ensures ran { Ran (emitted_line (rewrite_target (titles_of running.old assembly.entry) assembly.entry.url.now dir.now) shift (line_of (text_of running.old source) line)) running.old running.new result }
{
    if let LineKind::Quoted = line.kind {
        return running.put_part(source, line.start, line.end);
    }
    let new = new_text(line.kind, shift, line.start, line.end);
    running.put_level(new.level)?;
    let text = source.part(new.start, new.end);
    rewrite::put_links(assembly, text, dir, running)
}

// The lines between two cursors as they stand, with what stands before them; nothing where there are none.
#[tactic(auto, using(crate::proofs::EmittedLaws::emitting))]
pub fn put_block(
    source: Source,
    from: LineCursor,
    to: LineCursor,
    running: &mut RunningText,
) -> Option<()>
    requires able { Reads running.old source }
    requires order { (from.at ≤ to.at) × ((to.at ≤ suc (source.end - source.start)) × (from.line < to.line → from.at < to.at)) }
    ensures same_reference { running.new.work.ghost_name ≡ running.old.work.ghost_name }
    ensures ran { Ran (block_text (text_of running.old source) from to) running.old running.new result }
{
    if to.line <= from.line {
        return Some(());
    }
    running.put_between(from.line, b"\n")?;
    running.put_part(source, from.at, to.at - 1)
}

// The next line of a source, with what stands before it where n lines of the text stand before it.
#[tactic(auto, using(crate::proofs::EmittedLaws::emitting))]
pub fn put_next(
    assembly: Assembly,
    source: Source,
    line: KeptLine,
    n: usize,
    shift: i32,
    dir: &[u8],
    running: &mut RunningText,
) -> Option<()>
    requires able { Reads running.old source }
    requires stand { Stand running.old assembly }
    requires line_in { LineIn source line }
    ensures same_reference { running.new.work.ghost_name ≡ running.old.work.ghost_name }
    ensures ran { Ran (break_before n ++ emitted_line (rewrite_target (titles_of running.old assembly.entry) assembly.entry.url.now dir.now) shift (line_of (text_of running.old source) line)) running.old running.new result }
{
    running.put_between(n, b"\n")?;
    put_line(assembly, source, line, shift, dir, running)
}
