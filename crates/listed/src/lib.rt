#![tactic(auto)]

// The members that list lines name, each as it stands in the contents.
ghost use Rattle.std.specs.Prelude.{◌≡◌, ◌+◌, ◌≤◌, ◌<◌, get_or};
ghost use Rattle.index.specs.Rows.{zero_row};
ghost use Rattle.listed.specs.Files.{no_outline, member_of, line_members, HaveRows};

use index::rows::Row;
use members::{Member, Members};
use outline::Outline;
use put::Source;
use text::part::Part;

// What is known before a member is prepared.
pub fn no_outline() -> Outline
    ensures { result ≡ no_outline }
{
    Outline::default()
}

// The member that is the file of a record, counted from 0, by its row.
fn member_of(k: usize, row: Row) -> Member
    requires { (k < 64) × (row.start + row.size ≤ 0xFFFFFFFFFFFFFFFF) }
    ensures { result ≡ member_of k row }
{
    Member {
        name: Part {
            start: row.name,
            end: row.end,
        },
        file: k + 1,
        source: Source {
            work: false,
            start: row.start,
            end: row.start + row.size,
        },
        outline: no_outline(),
    }
}

// A row; that of no record where there is none.
fn row_at(rows: &[Row], k: usize) -> Row
    ensures { result ≡ get_or rows.now k zero_row }
{
    rows.get(k).copied().unwrap_or_default()
}

// The member of each list line, in the list's order.
#[tactic(auto, using(crate::proofs::FilesLaws::listing))]
pub fn members_of(rows: &[Row], lines: &[usize]) -> Members
    requires { HaveRows rows.now lines.now }
    ensures { result.items ≡ line_members rows.now lines.now }
{
    let mut members = Members::new();
    for &k in lines {
        members.push(member_of(k, row_at(rows, k)));
    }
    members
}
