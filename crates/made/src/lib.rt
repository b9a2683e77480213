#![tactic(auto)]

// The members of a book: each filled in its slot of the work buffer, or kept as it stands in the contents.
ghost use Rattle.std.specs.Prelude.{◌≡◌, ◌+◌, length, take, drop};
ghost use Rattle.chains.specs.Chains.{start_at};
ghost use Rattle.chains.specs.Fill.{filled};
ghost use Rattle.index.specs.FileSets.{files_of};
ghost use Rattle.filling.specs.Filling.{read_filled, FilledWithin};
ghost use Rattle.members.specs.Members.{file_in, all_files, AllLie};
ghost use Rattle.made.specs.Made.{slot, placed_at, CanFill, CanMake, MadeOf};

use answer::{Answer, Refusal};
use index::file_set::FileSet;
use members::Member;
use opening::{Chain, Filling};
use put::Source;

// A member whose text lies at another place now.
fn placed(m: Member, source: Source) -> Member
    ensures { result ≡ placed_at m source }
{
    Member {
        source,
        outline: listed::no_outline(),
        ..m
    }
}

// Fills a member that stands in the contents, from a place of the work buffer on. The chain starts with its name.
#[tactic(auto, using(crate::proofs::MemberLaws::slots))]
fn fill_member(
    files: FileSet,
    m: Member,
    at: Filling,
    slot: usize,
    work: &mut [u8],
) -> Result<Answer, Refusal>
    requires { CanFill files m at.limit slot (length work.old) × (at.number ≡ m.file) }
    ensures work_after { read_filled result (drop slot work.new) ≡ filled at.allowance at.limit at.used
        (start_at (files_of files.entry) (file_in files.entry.index.now files.entry.contents.now work.old m)) }
    ensures filled_within { FilledWithin result at.limit × (take slot work.new ≡ take slot work.old) }
{
    let name = &files.index[m.name.start..m.name.end];
    let text = &files.contents[m.source.start..m.source.end];
    let chain = Chain {
        files,
        top: name,
        marks: [false; 64],
    };
    fragment::fill_regions(chain, name, text, at, &mut work[slot..])
}

// Makes members, which stand in the contents: a filled one lies in its slot then, and one with no region is kept as it stands. The allowance runs on through them. Answers
// how many files were taken in.
#[tactic(auto, using(crate::proofs::MakingLaws::makings))]
pub fn put_made(
    files: FileSet,
    limit: usize,
    allowance: usize,
    members: &mut [Member],
    work: &mut [u8],
) -> Result<usize, Refusal>
    requires { CanMake files members.old limit (length work.old) }
    ensures made_of { MadeOf allowance limit (files_of files.entry) (all_files files.entry.index.now files.entry.contents.now work.old members.old)
        (all_files files.entry.index.now files.entry.contents.now work.new members.new) result }
    ensures all_lie { AllLie files.entry.index.now (length files.entry.contents.now) limit (slot limit (length members.old)) members.new }
{
    let mut used = 0;
    for i in 0..members.len() {
        let member = members[i];
        let at = Filling {
            number: member.file,
            limit,
            allowance,
            used,
        };
        let slot = (i + 1) * limit;
        match fill_member(files, member, at, slot, work) {
            Ok(
                Answer::Accepted {
                    length,
                    files: taken,
                },
            ) => {
                let filled = Source {
                    work: true,
                    start: slot,
                    end: slot + length,
                };
                members[i] = placed(member, filled);
                used = taken;
            }
            Ok(Answer::NoRegion) => continue,
            Err(refusal) => return Err(refusal),
        }
    }
    Ok(used)
}
