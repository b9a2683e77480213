// A line of an index.
ghost use Rattle.std.specs.Prelude.{◌≡◌};
ghost use Rattle.index.specs.Index.{field_of, line_of};

use crate::name;
use buffer::decimal;
use text::bytes;

// A record: how long the name is, and start and length of the file's part.
#[derive(Clone, Copy)]
pub struct IndexLine {
    pub name: usize,
    pub start: usize,
    pub size: usize,
}

// The number of a field; None where it is ill formed.
#[tactic(auto, using(crate::proofs::IndexLaws::needless_by), unfolding(crate::specs::Index::field_of))]
fn field(s: &[u8]) -> Option<usize>
    ensures { result ≡ field_of s.now }
{
    if s.is_empty() || s.len() > 9 || s.len() > 1 && s[0] == b'0' {
        return None;
    }
    decimal::parse(s)
}

// Reads a line of the index; None where it is ill formed.
#[tactic(auto, using(crate::proofs::IndexLaws::lines))]
pub fn read_line(line: &[u8]) -> Option<IndexLine>
    ensures { result ≡ line_of line.now }
{
    let a = bytes::find_byte(line, 0, b'\t');
    if a == line.len() {
        return None;
    }
    let b = bytes::find_byte(line, a + 1, b'\t');
    if b == line.len() {
        return None;
    }
    let c = bytes::find_byte(line, b + 1, b'\t');
    if c != line.len() {
        return None;
    }
    if !name::is_name(&line[..a]) {
        return None;
    }
    let start = field(&line[a + 1..b])?;
    let size = field(&line[b + 1..])?;
    Some(IndexLine {
        name: a,
        start,
        size,
    })
}
