#![tactic(auto)]

// A text that is put without the bytes of links that name its host: such a link is an anchor there.
ghost use Rattle.std.specs.Prelude.{◌≡◌};
ghost use Rattle.put.specs.Running.{Reads, Ran, text_of};
ghost use Rattle.self_links.specs.Cuts.{linked_text};

use link::target::Embedding;
use put::Source;
use put::running::RunningText;

pub mod cut;

// A source without the bytes that go. None: it would go over the limit.
#[tactic(auto, using(crate::proofs::CuttingLaws::cutting))]
pub fn put_cuts(source: Source, embedding: Embedding, running: &mut RunningText) -> Option<()>
    requires { Reads running.old source }
    ensures same_reference { running.new.work.ghost_name ≡ running.old.work.ghost_name }
    ensures ran { Ran (linked_text embedding.entry.host.now embedding.entry.dir.now (text_of running.old source)) running.old running.new result }
{
    let mut i = 0;
    while let Some(cut) = cut::next_cut(running.bytes(source), i, embedding) {
        running.put_part(source, i, cut.start)?;
        running.put_part(source, cut.end, cut.next)?;
        i = cut.next;
    }
    running.put_part(source, i, source.end - source.start)
}
