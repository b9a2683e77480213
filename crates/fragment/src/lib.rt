#![tactic(auto)]

// Filling in the fragment regions of a file. `fill_regions` and `embed` call each other: the files on a chain are marked, and each level has its text at
// the front of its buffer, up to the limit, and lends what lies past the limit to the next.
ghost use Rattle.std.specs.Prelude.{◌≡◌, suc, ◌*◌, ◌<◌, ◌≤◌, length, take};
ghost use Rattle.answer.specs.Answer.{place};
ghost use Rattle.index.specs.FileSets.{files_of};
ghost use Rattle.index.specs.Index.{file_of};
ghost use Rattle.walk.specs.Steps.{judge};
ghost use Rattle.embedding.specs.Embed.{embed_told};
ghost use Rattle.chains.specs.Chains.{file_at, free, chain as chain_of};
ghost use Rattle.chains.specs.Fill.{walk, filled};
ghost use Rattle.filling.specs.Filling.{read_filled, FilledWithin, read_text, TextWithin, embedded_by, chain_to, CanEmbed};

use answer::{Answer, Place, Refusal};
use filling::Filled;
use index::records::Index;
use insertion::Insertion;
use opening::{Chain, Filling, Opened};
use regions::host;
use regions::host::Opening;
use survey::Surveyed;

// Takes the file of a region in behind the running text: fills it past the limit, with its mark set for as long, and embeds what that gave.
#[cycle(embed_fill_regions)]
fn embed(
    chain: Chain,
    host: &[u8],
    region: Opening,
    opened: Opened,
    at: Filling,
    work: &mut [u8],
) -> Result<Filled, Refusal>
    requires { (at.used < at.allowance) × CanEmbed chain.marks (length (files_of chain.files)) opened.file region.target opened.length at.limit (length work.old) }
    ensures work_after { read_text result work.new ≡ embedded_by at.limit (place at.number region.line) (take opened.length work.old)
        (embed_told host.now (file_at (files_of chain.entry.files) opened.file).name region.target (file_at (files_of chain.entry.files) opened.file).number)
        (judge at.allowance at.limit (suc at.used) (walk (chain_to (files_of chain.entry.files) chain.entry.top.now chain.entry.marks opened.file))) }
    ensures text_within { TextWithin result at.limit }
{
    let file = opened.file;
    let name = chain.files.name(file);
    let text = chain.files.text(file);
    let limit = at.limit;
    let mut longer = chain;
    longer.marks[file] = true;
    let inner = Filling {
        number: file + 1,
        used: at.used + 1,
        ..at
    };
    let got = fill_regions(longer, name, text, inner, &mut work[limit..]);
    let to = Insertion {
        opener: Place {
            file: at.number,
            line: region.line,
        },
        target: region.target,
        number: file + 1,
        limit,
        len: opened.length,
    };
    taking::take_in(got, name, text, host, at.used + 1, to, work)
}

// Fills a file, the last of a chain.
#[cycle(embed_fill_regions)]
pub fn fill_regions(
    chain: Chain,
    name: &[u8],
    s: &[u8],
    at: Filling,
    work: &mut [u8],
) -> Result<Answer, Refusal>
    requires { suc (free (take (length (files_of chain.files)) chain.marks)) * at.limit ≤ length work.old }
    ensures work_after { read_filled result work.new ≡ filled at.allowance at.limit at.used
        (chain_of (files_of chain.entry.files) chain.entry.top.now chain.entry.marks (file_of at.number name.now s.now)) }
    ensures filled_within { FilledWithin result at.limit }
{
    let Surveyed::Regions = survey::survey(s, at.number)? else {
        return Ok(Answer::NoRegion);
    };
    let index = Index {
        text: chain.files.index,
        rows: chain.files.rows,
    };
    let mut cursor = host::start();
    let mut text = Filled {
        length: 0,
        files: at.used,
    };
    while let Some((region, behind)) = host::next_host(s, cursor) {
        let here = Filling {
            used: text.files,
            ..at
        };
        let opened = opening::open_region(
            index,
            chain.top,
            chain.marks,
            s,
            cursor.from,
            region,
            here,
            text.length,
            work,
        )?;
        text = embed(chain, name, region, opened, here, work)?;
        cursor = behind;
    }
    filling::put_last(s, cursor.from, at, text, work)
}
