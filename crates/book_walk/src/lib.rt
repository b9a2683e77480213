#![tactic(auto)]

// The walk of a book: the members of a list filled, and joined into one text, at the front of the work buffer.
ghost use Rattle.std.specs.Prelude.{◌≡◌, ◌+◌, ◌*◌, ◌≤◌, length};
ghost use Rattle.index.specs.Rows.{AreShort};
ghost use Rattle.index.specs.FileSets.{files_of};
ghost use Rattle.walk.specs.Outcome.{outcome};
ghost use Rattle.walk.specs.Steps.{judge};
ghost use Rattle.members.specs.Members.{all_files};
ghost use Rattle.listed.specs.Files.{AreListed};
ghost use Rattle.book.specs.BookWalk.{book};
ghost use Rattle.made.specs.Made.{book_of, CanMake};
ghost use Rattle.filling.specs.Filling.{read_filled};
ghost use Rattle.give.specs.Given.{Fits};

use answer::{Answer, Refusal};
use index::file_set::FileSet;
use members::Member;

// Fills members, and assembles them at the front of the work buffer. The table of anchors stands behind their slots.
fn assemble_made(
    files: FileSet,
    url: &[u8],
    limit: usize,
    allowance: usize,
    members: &mut [Member],
    work: &mut [u8],
) -> Result<Answer, Refusal>
    requires { CanMake files members.old limit (length work.old) × (1 ≤ limit) }
    ensures work_after { read_filled result work.new ≡ outcome (judge allowance limit 0 (book_of (files_of files.entry)
        (all_files files.entry.index.now files.entry.contents.now work.old members.old) url.now)) }
    ensures fits { Fits result limit limit }
{
    let table = (members.len() + 1) * limit;
    let taken = made::put_made(files, limit, allowance, members, work)?;
    let length = assembly::assemble(
        files.index,
        files.contents,
        url,
        members,
        limit,
        table,
        work,
    )?;
    Ok(Answer::Accepted {
        length,
        files: taken,
    })
}

// The same for the members of a list: each line has the number of a file.
pub fn assemble_listed(
    files: FileSet,
    lines: &[usize],
    url: &[u8],
    limit: usize,
    allowance: usize,
    work: &mut [u8],
) -> Result<Answer, Refusal>
    requires { AreShort files.rows.now × (AreListed (length (files_of files)) lines.now × ((1 ≤ limit) × ((length (files_of files) + length lines.now + 2) * limit ≤ length work.old))) }
    ensures work_after { read_filled result work.new ≡ outcome (judge allowance limit 0 (book (files_of files.entry) lines.now url.now)) }
    ensures fits { Fits result limit limit }
{
    let mut members = listed::members_of(files.rows, lines);
    assemble_made(files, url, limit, allowance, members.as_mut_slice(), work)
}
