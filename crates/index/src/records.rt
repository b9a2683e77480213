// An index that is read, and what refusals 3 to 5 look for in its records.
ghost use Rattle.std.specs.Prelude.{◌≡◌, List, [], ℕ, ◌≤◌, length};
ghost use Rattle.index.specs.Records.{past_from, wide_from};
ghost use Rattle.index.specs.Rows.{records_of, AreNamed, AreWithin};

use crate::rows::Row;
use answer::Place;
use text::{ascii, pattern};

// The text, and the rows of its records, which are at most 64. Their names lie in the text.
#[derive(Clone, Copy)]
pub struct Index<'a> {
    pub text: &'a [u8],
    pub rows: &'a [Row],
    pub ghost few: { length rows.now ≤ 64 },
    pub ghost named: { AreNamed text.now rows.now },
}

impl Index<'_> {
    ghost use Rattle.index.specs.Index.{find_record};
    ghost use Rattle.index.specs.Records.{twice_from};
    ghost use Rattle.index.specs.FileSets.{records_in};

    // The first record of a name, counted from 0; None where no record has it.
    #[tactic(auto, using(crate::proofs::RowsLaws::finding))]
    pub fn find(self, name: &[u8]) -> Option<usize>
        ensures { result ≡ find_record name.now (records_in self.entry) }
    {
        for (k, row) in self.rows.iter().enumerate() {
            if pattern::equals(&self.text[row.name..row.end], name) {
                return Some(k);
            }
        }
        None
    }

    // The line of the first record whose name one before it has; None where there is none.
    #[tactic(auto, using(crate::proofs::RecordLaws::twice))]
    pub fn twice_line(self) -> Option<usize>
        ensures { result ≡ twice_from 1 [] (records_in self.entry) }
    {
        for (k, row) in self.rows.iter().enumerate() {
            let before = Index {
                text: self.text,
                rows: &self.rows[..k],
            };
            if before.find(&self.text[row.name..row.end]).is_some() {
                return Some(k + 1);
            }
        }
        None
    }
}

// The line of the first record whose part ends past the contents; None where there is none. No name is read, so this is so for every index.
#[tactic(auto, using(crate::proofs::RecordLaws::passing))]
pub fn past_line(rows: &[Row], room: usize) -> Option<usize>
    requires { length rows.now ≤ 64 }
    ensures { (index : List ℕ) → result ≡ past_from 1 room (records_of index rows.now) }
{
    for (k, row) in rows.iter().enumerate() {
        if room < row.start || room - row.start < row.size {
            return Some(k + 1);
        }
    }
    None
}

// The place of the first byte 80 hex or above in the files; None where there is none. This too is so for every index.
#[tactic(auto, using(crate::proofs::RecordLaws::wide))]
pub fn wide_place(contents: &[u8], rows: &[Row]) -> Option<Place>
    requires few { length rows.now ≤ 64 }
    requires within { AreWithin (length contents.now) rows.now }
    ensures { (index : List ℕ) → result ≡ wide_from 1 contents.now (records_of index rows.now) }
{
    for (k, row) in rows.iter().enumerate() {
        if let Some(line) = ascii::wide_line(&contents[row.start..row.start + row.size]) {
            return Some(Place { file: k + 1, line });
        }
    }
    None
}
