#![tactic(auto)]

// A file that is filled, embedded in its host.
ghost use Rattle.std.specs.Prelude.{◌≡◌, length, take, drop};
ghost use Rattle.embedding.specs.Embed.{embed_told};
ghost use Rattle.filling.specs.Filling.{read_filled, read_text, TextWithin, taken_in, CanTake};

use answer::{Answer, Refusal};
use filling::Filled;
use insertion::Insertion;
use put::Source;

// Embeds what a fill gave behind the running text: its text, which starts at the limit; the file as it stands, where it has no region; or its refusal.
pub fn take_in(
    got: Result<Answer, Refusal>,
    name: &[u8],
    text: &[u8],
    host: &[u8],
    used: usize,
    at: Insertion,
    work: &mut [u8],
) -> Result<Filled, Refusal>
    requires { CanTake got at.target at.len at.limit (length work.old) }
    ensures work_after { read_text result work.new ≡ taken_in at.limit at.opener (take at.len work.old)
        (embed_told host.now name.now at.target at.number) text.now used
        (read_filled got (drop at.limit work.old)) }
    ensures text_within { TextWithin result at.limit }
{
    match got? {
        Answer::Accepted { length, files } => {
            let kept = embedding::drop_markers(&mut work[at.limit..], length);
            let source = Source {
                work: true,
                start: at.limit,
                end: at.limit + kept,
            };
            let length = insertion::insert(text, source, host, name, at, work)?;
            Ok(Filled { length, files })
        }
        Answer::NoRegion => {
            let source = Source {
                work: false,
                start: 0,
                end: text.len(),
            };
            let length = insertion::insert(text, source, host, name, at, work)?;
            Ok(Filled {
                length,
                files: used,
            })
        }
    }
}
