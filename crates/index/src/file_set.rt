// A file set: an index that is read, with its contents.
ghost use Rattle.std.specs.Prelude.{◌≡◌, ◌≤◌, ◌<◌, length};
ghost use Rattle.index.specs.Index.{find_file, file_at};
ghost use Rattle.index.specs.Rows.{AreNamed, AreWithin};

use crate::records::Index;
use crate::rows::Row;

// The index, the contents, and the rows of the records. The names lie in the index, and the files in the contents.
#[derive(Clone, Copy)]
pub struct FileSet<'a> {
    pub index: &'a [u8],
    pub contents: &'a [u8],
    pub rows: &'a [Row],
    pub ghost few: { length rows.now ≤ 64 },
    pub ghost named: { AreNamed index.now rows.now },
    pub ghost within: { AreWithin (length contents.now) rows.now },
}

impl<'a> FileSet<'a> {
    ghost use Rattle.index.specs.FileSets.{files_of};

    // The first file of a name, counted from 0; None where no file has it.
    #[tactic(auto, using(crate::proofs::RowsLaws::files))]
    pub fn find(self, name: &[u8]) -> Option<usize>
        ensures { result ≡ find_file name.now (files_of self.entry) }
    {
        let index = Index {
            text: self.index,
            rows: self.rows,
        };
        index.find(name)
    }

    // The name of a file.
    #[tactic(auto, using(crate::proofs::RowsLaws::files))]
    pub fn name(self, k: usize) -> &'a [u8]
        requires { k < length (files_of self) }
        ensures { result.now ≡ (file_at (files_of self.entry) k).name }
    {
        let row = self.rows[k];
        &self.index[row.name..row.end]
    }

    // Its part of the contents.
    #[tactic(auto, using(crate::proofs::RowsLaws::files))]
    pub fn text(self, k: usize) -> &'a [u8]
        requires { k < length (files_of self) }
        ensures { result.now ≡ (file_at (files_of self.entry) k).text }
    {
        let row = self.rows[k];
        &self.contents[row.start..row.start + row.size]
    }
}
