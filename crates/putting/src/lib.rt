#![tactic(auto)]

// The lines of a file that is taken in, as they become in its host, put behind the running text: their headings moved, and links that name the host made anchors.
ghost use Rattle.std.specs.Prelude.{◌≡◌, ◌++◌, ◌+◌, ◌≤◌};
ghost use Rattle.text.specs.Bytes.{part};
ghost use Rattle.put.specs.NewText.{LevelIn};
ghost use Rattle.put.specs.Running.{Fits, Reads, Ran, text_of};
ghost use Rattle.self_links.specs.Cuts.{linked_text};
ghost use Rattle.putting.specs.Lines.{start_of, linked_lines};

use link::target::Embedding;
use put::Source;
use put::line::NewText;
use put::running::RunningText;

pub mod line;

// What stands before a line's text: an LF, and a heading's hashes and space.
fn put_start(level: Option<usize>, running: &mut RunningText) -> Option<()>
    requires fits { Fits running.old }
    requires level { LevelIn level }
    ensures same_reference { running.new.work.ghost_name ≡ running.old.work.ghost_name }
    ensures ran { Ran (start_of level) running.old running.new result }
{
    running.put_bytes(b"\n")?;
    running.put_level(level)
}

// A line as it becomes, an LF before it.
fn put_line(
    source: Source,
    new: NewText,
    embedding: Embedding,
    running: &mut RunningText,
) -> Option<()>
    requires able { Reads running.old source }
    requires new_within { LevelIn new.level × ((new.start ≤ new.end) × (source.start + new.end ≤ source.end)) }
    ensures same_reference { running.new.work.ghost_name ≡ running.old.work.ghost_name }
    ensures ran { Ran (start_of new.level ++ linked_text embedding.entry.host.now embedding.entry.dir.now (part new.start new.end (text_of running.old source))) running.old running.new result }
{
    put_start(new.level, running)?;
    self_links::put_cuts(source.part(new.start, new.end), embedding, running)
}

// The lines of a source as they become, an LF before each. None: they would go over the limit.
#[tactic(auto, using(crate::proofs::LineLaws::putting))]
pub fn put_lines(
    source: Source,
    shift: i32,
    embedding: Embedding,
    running: &mut RunningText,
) -> Option<()>
    requires able { Reads running.old source }
    ensures same_reference { running.new.work.ghost_name ≡ running.old.work.ghost_name }
    ensures ran { Ran (linked_lines embedding.entry.host.now embedding.entry.dir.now shift (text_of running.old source)) running.old running.new result }
{
    let mut a = 0;
    let mut state = heading::walk::begin();
    while let Some(line) = line::line_at(running.bytes(source), a, state, shift) {
        put_line(source, line.text, embedding, running)?;
        a = line.end + 1;
        state = line.state;
    }
    Some(())
}
