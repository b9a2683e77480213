#![tactic(auto)]

// The lines of a file that is taken in, put behind the running text of its host.
ghost use Rattle.std.specs.Prelude.{◌≡◌, ◌≤◌, length, take};
ghost use Rattle.text.specs.Lines.{pieces};
ghost use Rattle.shift.specs.Shift.{told_lines};
ghost use Rattle.embedding.specs.Embed.{embed_told};
ghost use Rattle.put.specs.Put.{Inside, source_text};
ghost use Rattle.insertion.specs.Insertion.{read_inserted, inserted_of, Within};

use answer::{Place, Refusal};
use link::target::Embedding;
use plan::Plan;
use put::Source;
use put::running::RunningText;

pub mod plan;

// What is embedded where: the opener's place, the target level, the file's number, the limit, and how long the running text is.
#[derive(Clone, Copy)]
pub struct Insertion {
    pub opener: Place,
    pub target: usize,
    pub number: usize,
    pub limit: usize,
    pub len: usize,
}

// Puts the lines of a text behind the running text at the front of the work buffer, as they become in a host, where the text's file has a name. Answers how long the running text is then.
pub fn insert(
    contents: &[u8],
    source: Source,
    host: &[u8],
    name: &[u8],
    at: Insertion,
    work: &mut [u8],
) -> Result<usize, Refusal>
    requires { Inside source at.limit (length contents.now) (length work.old) × ((at.len ≤ at.limit) × ((at.limit ≤ length work.old) × ((1 ≤ at.target) × (at.target ≤ 7)))) }
    ensures work_after { read_inserted result work.new ≡ inserted_of at.limit (take at.len work.old) at.opener (embed_told host.now name.now at.target at.number (told_lines (pieces (source_text source contents.now work.old)))) }
    ensures within { Within result at.limit }
{
    let text = source.bytes(contents, work);
    let Plan { start, end, shift } = match plan::plan_of(text, at.target) {
        Ok(Some(plan)) => plan,
        Ok(None) => return Ok(at.len),
        Err(line) => {
            return Err(Refusal::HeadingLevel(Place {
                file: at.number,
                line,
            }));
        }
    };
    let lines = source.part(start, end);
    let dir = &name[..path::parent_dir(name)];
    let mut running = RunningText {
        contents,
        work,
        at: at.len,
        limit: at.limit,
    };
    match putting::put_lines(lines, shift, Embedding { dir, host }, &mut running) {
        Some(()) => Ok(running.at),
        None => Err(Refusal::TextLimit(at.opener)),
    }
}
