#![tactic(auto)]

// What stands before a region's file: the host's bytes through the opener's line, and the file that the region names.
ghost use Rattle.std.specs.Prelude.{◌≡◌, List, ℕ, ◌++◌, ◌≤◌, length, take};
ghost use Rattle.chains.specs.Chains.{next_named};
ghost use Rattle.answer.specs.Answer.{place};
ghost use Rattle.text.specs.Bytes.{part};
ghost use Rattle.index.specs.Rows.{files_in};
ghost use Rattle.insertion.specs.Insertion.{read_inserted, Within, tested};
ghost use Rattle.opening.specs.Opening.{named_of, read_opened, OpenedWithin, entry_of, CanOpen};

use answer::{Place, Refusal};
use index::file_set::FileSet;
use index::records::Index;
use regions::host::Opening;
use text::pattern;

// A chain of files: the set, the name that the chain started with, and a mark for each file that was taken in since.
#[derive(Clone, Copy)]
pub struct Chain<'a> {
    pub files: FileSet<'a>,
    pub top: &'a [u8],
    pub marks: [bool; 64],
}

// The file's number for places, the limit, the allowance, and how many files were taken in before.
#[derive(Clone, Copy)]
pub struct Filling {
    pub number: usize,
    pub limit: usize,
    pub allowance: usize,
    pub used: usize,
}

// The file to take in and how long the text through the opener is, or a refusal.
#[derive(Clone, Copy)]
pub struct Opened {
    pub file: usize,
    pub length: usize,
}

// The file that a name leads to: 13, 14, then 15.
#[tactic(auto, using(crate::proofs::FilesLaws::leads))]
fn named_file(
    index: Index,
    top: &[u8],
    marks: [bool; 64],
    name: &[u8],
    opener: Place,
    at: Filling,
) -> Result<usize, Refusal>
    ensures { (contents : List ℕ) → result ≡ named_of at.allowance at.used opener (next_named (files_in index.entry.text.now contents index.entry.rows.now) top.now marks opener name.now) }
{
    if pattern::equals(name, top) {
        return Err(Refusal::OnChain(opener));
    }
    let file = index.find(name).ok_or(Refusal::Absent(opener))?;
    if marks[file] {
        return Err(Refusal::OnChain(opener));
    }
    if at.allowance <= at.used {
        return Err(Refusal::Allowance(opener));
    }
    Ok(file)
}

// Puts a block of the host behind the running text; 17 at a place.
pub fn put_block(
    block: &[u8],
    at: Place,
    limit: usize,
    len: usize,
    work: &mut [u8],
) -> Result<usize, Refusal>
    requires { (len ≤ limit) × (limit ≤ length work.old) }
    ensures work_after { read_inserted result work.new ≡ tested limit at (take len work.old ++ block.now) }
    ensures within { Within result limit }
{
    if limit - len < block.len() {
        return Err(Refusal::TextLimit(at));
    }
    Ok(buffer::copy(block, work, len))
}

// What comes before a region's file: the host's bytes through the opener's line, with 17; 12; the file, with 13, 14 and 15. No file is read, so this is so for all contents.
pub fn open_region(
    index: Index,
    top: &[u8],
    marks: [bool; 64],
    s: &[u8],
    from: usize,
    o: Opening,
    at: Filling,
    len: usize,
    work: &mut [u8],
) -> Result<Opened, Refusal>
    requires { CanOpen (length s.now) from o len at.limit (length work.old) }
    ensures opened { (contents : List ℕ) → read_opened result work.new ≡ entry_of at.limit (place at.number o.line) o.headless (take len work.old ++ part from o.end s.now)
        (named_of at.allowance at.used (place at.number o.line)
        (next_named (files_in index.entry.text.now contents index.entry.rows.now) top.now marks (place at.number o.line) (part o.path.start o.path.end s.now))) }
    ensures opened_within { OpenedWithin result at.limit }
{
    let opener = Place {
        file: at.number,
        line: o.line,
    };
    let length = put_block(&s[from..o.end], opener, at.limit, len, work)?;
    if o.headless {
        return Err(Refusal::PeerWithoutHeading(opener));
    }
    let name = &s[o.path.start..o.path.end];
    let file = named_file(index, top, marks, name, opener, at)?;
    Ok(Opened { file, length })
}
