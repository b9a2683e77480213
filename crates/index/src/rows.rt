// The index once it is read: a row for each record.
ghost use Rattle.std.specs.Prelude.{◌≡◌};
ghost use Rattle.index.specs.Rows.{index_read, Told};

use crate::line;
use arrayvec::ArrayVec;
use text::lines;

// Where a record's name starts and ends in the index, and start and length of its file's part of the contents.
#[derive(Clone, Copy, Default)]
pub struct Row {
    pub name: usize,
    pub end: usize,
    pub start: usize,
    pub size: usize,
}

// The rows of the first 64 records.
pub type Rows = ArrayVec<Row, 64>;

// Reads an index and answers how many records it has, or its first line that is ill formed. Lines past the 64th are judged and not kept, since refusal 1 comes before refusal 2.
#[tactic(auto, using(crate::proofs::ReadLaws::reading))]
pub fn read(index: &[u8], rows: &mut Rows) -> Result<usize, usize>
    ensures value { result ≡ index_read index.now }
    ensures told { Told index.now rows.new.items result }
{
    rows.clear();
    let mut n = 0;
    let mut at = 0;
    for line in lines::ended(index) {
        let fields = line::read_line(line).ok_or(n + 1)?;
        let row = Row {
            name: at,
            end: at + fields.name,
            start: fields.start,
            size: fields.size,
        };
        let _ = rows.try_push(row);
        n += 1;
        at += line.len() + 1;
    }
    if at < index.len() {
        return Err(n + 1);
    }
    Ok(n)
}
