// The member list.
ghost use Rattle.std.specs.Prelude.{◌≡◌, ◌≤◌, length, None};
ghost use Rattle.fileset.specs.Members.{names, list_lines, absent_from, members_from};
ghost use Rattle.index.specs.FileSets.{records_in};

use arrayvec::ArrayVec;
use index::records::Index;
use text::{bytes, lines, pattern};

// How many lines a list has.
#[tactic(auto, using(crate::proofs::MemberLaws::counting))]
pub fn line_count(list: &[u8]) -> usize
    ensures { result ≡ length (names list.now) }
{
    bytes::count_byte(list, b'\n')
}

// The same, where each line ends in LF and they are at most 64; else None.
#[tactic(auto, unfolding(crate::specs::Members::list_lines))]
pub fn list_lines(list: &[u8]) -> Option<usize>
    ensures { result ≡ list_lines list.now }
{
    if !list.is_empty() && !pattern::ends_with(list, b"\n") {
        return None;
    }
    let count = line_count(list);
    (count <= 64).then_some(count)
}

// The record of each line, counted from 0.
pub type Records = ArrayVec<usize, 64>;

// Finds the record of each line's name and answers the first line that has none; None where each has one.
#[tactic(auto, using(crate::proofs::MemberLaws::walking))]
pub fn read(list: &[u8], index: Index, members: &mut Records) -> Option<usize>
    requires { length (names list.now) ≤ 64 }
    ensures value { result ≡ absent_from 1 (records_in index.entry) (names list.now) }
    ensures members_after { result ≡ None → members.new.items ≡ members_from (records_in index.entry) (names list.now) }
{
    members.clear();
    for name in lines::ended(list) {
        let Some(record) = index.find(name) else {
            return Some(members.len() + 1);
        };
        members.push(record);
    }
    None
}
