// The refusals before the walk, in their order.
ghost use Rattle.std.specs.Prelude.{◌≡◌, ◌≤◌, length, OnOk};
ghost use Rattle.index.specs.Index.{records};
ghost use Rattle.index.specs.Rows.{AreWithin};
ghost use Rattle.index.specs.FileSets.{records_in};
ghost use Rattle.fileset.specs.Check.{records_checked, index_checked, head_checked, refuse_sizes, list_checked, fill_checked, book_checked, check_of, Read};
ghost use Rattle.fileset.specs.Members.{members as members_of};

use crate::members;
use crate::members::Records;
use answer::{Place, Refusal};
use index::file_set::FileSet;
use index::records::Index;
use index::rows::Rows;
use index::{name, records, rows};
use text::ascii;

// The text limit, and how many bytes output and work buffer have.
#[derive(Clone, Copy)]
pub struct Sizes {
    pub limit: usize,
    pub output: usize,
    pub work: usize,
}

// Refusals 3 and 4, where 2 is not given.
#[tactic(auto, using(crate::proofs::CheckLaws::checking))]
fn check_records(index: Index, room: usize) -> Result<(), Refusal>
    ensures value { result ≡ records_checked room (records_in index.entry) }
    ensures within { OnOk result (AreWithin room index.entry.rows.now) }
{
    if let Some(line) = records::past_line(index.rows, room) {
        return Err(Refusal::PastContents(line));
    }
    if let Some(line) = index.twice_line() {
        return Err(Refusal::NameTwice(line));
    }
    Ok(())
}

// Refusals 1 to 4, or the file set. The index is read into the rows.
#[tactic(auto, using(crate::proofs::CheckLaws::reading), unfolding(crate::specs::Check::index_checked))]
fn check_index<'a>(
    index: &'a [u8],
    contents: &'a [u8],
    rows: &'a mut Rows,
) -> Result<FileSet<'a>, Refusal>
    ensures value { check_of result ≡ index_checked index.now contents.now }
    ensures read { Read index.now contents.now result }
{
    let count = rows::read(index, rows).map_err(|line| Refusal::IndexLine(line))?;
    if 64 < count {
        return Err(Refusal::TooManyRecords);
    }
    let rows = rows.as_slice();
    let read = Index { text: index, rows };
    check_records(read, contents.len())?;
    Ok(FileSet {
        index,
        contents,
        rows,
    })
}

// Refusals 1 to 6, for a host's text and name; an assembly or a book has its URL in the name's place, and an empty text.
fn check_head<'a>(
    index: &'a [u8],
    contents: &'a [u8],
    text: &[u8],
    name: &[u8],
    rows: &'a mut Rows,
) -> Result<FileSet<'a>, Refusal>
    ensures value { check_of result ≡ head_checked index.now contents.now text.now name.now }
    ensures read { Read index.now contents.now result }
{
    let files = check_index(index, contents, rows)?;
    if let Some(line) = ascii::wide_line(text) {
        return Err(Refusal::WideByte(Place { file: 0, line }));
    }
    if let Some(place) = records::wide_place(contents, files.rows) {
        return Err(Refusal::WideByte(place));
    }
    if !name::is_name(name) {
        return Err(Refusal::NameForm);
    }
    Ok(files)
}

// Refusal 8: the limit is out of its range, or the output has no room for it, or the work buffer none for a text a record and a list line and two more.
#[tactic(auto, using(crate::proofs::CheckLaws::sizes_fit))]
fn check_sizes(count: usize, lines: usize, sizes: Sizes) -> Result<(), Refusal>
    requires { (count ≤ 64) × (lines ≤ 64) }
    ensures { result ≡ refuse_sizes count lines sizes.limit sizes.output sizes.work }
{
    if !(1..=1048576).contains(&sizes.limit)
        || sizes.output < sizes.limit
        || sizes.work < (count + lines + 2) * sizes.limit
    {
        return Err(Refusal::Sizes);
    }
    Ok(())
}

// Refusals 7, 8 and 14. The record of each list line goes to the members.
#[tactic(auto, using(crate::proofs::CheckLaws::listing))]
fn check_list(list: &[u8], index: Index, sizes: Sizes, members: &mut Records) -> Result<(), Refusal>
    ensures value { result ≡ list_checked (records_in index.entry) list.now sizes.limit sizes.output sizes.work }
    ensures listed { OnOk result (members.new.items ≡ members_of (records_in index.entry) list.now) }
{
    let lines = members::list_lines(list).ok_or(Refusal::ListForm)?;
    check_sizes(index.rows.len(), lines, sizes)?;
    if let Some(line) = members::read(list, index, members) {
        return Err(Refusal::Absent(Place { file: 0, line }));
    }
    Ok(())
}

// The refusals of a fill, or the file set.
#[tactic(auto, using(crate::proofs::CheckLaws::heading), unfolding(crate::specs::Check::fill_checked))]
pub fn check_fill<'a>(
    index: &'a [u8],
    contents: &'a [u8],
    name: &[u8],
    text: &[u8],
    sizes: Sizes,
    rows: &'a mut Rows,
) -> Result<FileSet<'a>, Refusal>
    ensures value { check_of result ≡ fill_checked index.now contents.now name.now text.now sizes.limit sizes.output sizes.work }
    ensures read { Read index.now contents.now result }
{
    let files = check_head(index, contents, text, name, rows)?;
    check_sizes(files.rows.len(), 0, sizes)?;
    Ok(files)
}

// The refusals of an assembly or a book, or the file set.
#[tactic(auto, using(crate::proofs::CheckLaws::heading), unfolding(crate::specs::Check::book_checked))]
pub fn check_book<'a>(
    index: &'a [u8],
    contents: &'a [u8],
    list: &[u8],
    url: &[u8],
    sizes: Sizes,
    rows: &'a mut Rows,
    members: &mut Records,
) -> Result<FileSet<'a>, Refusal>
    ensures value { check_of result ≡ book_checked index.now contents.now list.now url.now sizes.limit sizes.output sizes.work }
    ensures read { Read index.now contents.now result }
    ensures listed { OnOk result (members.new.items ≡ members_of (records index.now) list.now) }
{
    let files = check_head(index, contents, b"", url, rows)?;
    let read = Index {
        text: files.index,
        rows: files.rows,
    };
    check_list(list, read, sizes, members)?;
    Ok(files)
}
