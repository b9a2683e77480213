#![tactic(auto)]

// The call assemble: the members of a list joined into one text, in the output.
ghost use Rattle.std.specs.Prelude.{◌≡◌, ◌+◌, ◌≤◌, length};
ghost use Rattle.index.specs.Rows.{AreShort};
ghost use Rattle.index.specs.FileSets.{files_of};
ghost use Rattle.walk.specs.Outcome.{outcome};
ghost use Rattle.walk.specs.Steps.{judge};
ghost use Rattle.assembled.specs.Assemble.{assemble as assemble_of};
ghost use Rattle.listed.specs.Files.{AreListed};
ghost use Rattle.book.specs.Book.{members_of};
ghost use Rattle.book.specs.Calls.{assemble_outcome, answer_of, output_after, work_after};
ghost use Rattle.filling.specs.Filling.{read_filled};
ghost use Rattle.give.specs.Given.{Fits};

use answer::{Answer, Refusal};
use fileset::check;
use fileset::check::Sizes;
use fileset::members::Records;
use index::file_set::FileSet;
use index::rows::Rows;

// Assembles the members that list lines name at the front of the work buffer: each line has the number of a file. The table of anchors stands behind the text. An assembly
// takes no file in.
fn assemble_listed(
    files: FileSet,
    lines: &[usize],
    url: &[u8],
    limit: usize,
    work: &mut [u8],
) -> Result<Answer, Refusal>
    requires { AreShort files.rows.now × (AreListed (length (files_of files)) lines.now × ((1 ≤ limit) × (limit + limit ≤ length work.old))) }
    ensures work_after { read_filled result work.new ≡ outcome (judge 0 limit 0 (assemble_of url.now (members_of (files_of files.entry) lines.now))) }
    ensures fits { Fits result limit limit }
{
    let mut members = listed::members_of(files.rows, lines);
    let table = limit;
    let length = assembly::assemble(
        files.index,
        files.contents,
        url,
        members.as_mut_slice(),
        limit,
        table,
        work,
    )?;
    Ok(Answer::Accepted { length, files: 0 })
}

// Checks the input, and assembles the members.
fn run<'a>(
    index: &'a [u8],
    contents: &'a [u8],
    list: &[u8],
    url: &[u8],
    sizes: Sizes,
    work: &mut [u8],
) -> Result<Answer, Refusal>
    requires { sizes.work ≡ length work.old }
    ensures work_after { read_filled result work.new ≡ assemble_outcome index.now contents.now list.now url.now sizes.limit sizes.output sizes.work }
    ensures fits { Fits result sizes.output sizes.work }
{
    let mut rows = Rows::new();
    let mut lines = Records::new();
    let files = check::check_book(index, contents, list, url, sizes, &mut rows, &mut lines)?;
    assemble_listed(files, lines.as_slice(), url, sizes.limit, work)
}

// An assembly of the members of a list, with the URL of their repository. The limit and both buffers are the caller's.
pub fn assemble(
    index: &[u8],
    contents: &[u8],
    list: &[u8],
    url: &[u8],
    limit: usize,
    out: &mut [u8],
    work: &mut [u8],
) -> Result<Answer, Refusal>
    ensures value { result ≡ answer_of (assemble_outcome index.now contents.now list.now url.now limit (length out.old) (length work.old)) }
    ensures out_after { out.new ≡ output_after (assemble_outcome index.now contents.now list.now url.now limit (length out.old) (length work.old)) out.old }
    ensures work_after { work.new ≡ work_after work.old }
{
    let sizes = Sizes {
        limit,
        output: out.len(),
        work: work.len(),
    };
    let got = run(index, contents, list, url, sizes, work);
    give::give(got, out, work);
    got
}
