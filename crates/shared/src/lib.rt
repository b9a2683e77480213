#![tactic(auto)]

// Shared anchors: the first heading whose anchor an earlier member of another name has.
ghost use Rattle.std.specs.Prelude.{◌≡◌, [], ◌∷◌, ◌++◌, ◌≤◌, ◌<◌, length, take};
ghost use Rattle.text.specs.Bytes.{part};
ghost use Rattle.members.specs.Members.{prepared_in, all_prepared, AllStand};
ghost use Rattle.shared.specs.Shared.{shared_in, shared_from};
ghost use Rattle.shared.specs.Tells.{Tells, TellsAfter, SharedOf};

use answer::Place;
use member::lines;
use members::Member;

// The first heading of a member whose anchor a member before it of another name has, and where that has it; None where there is none. The table of marks stands in the work buffer from a place up to another.
#[tactic(auto, using(crate::proofs::CompareLaws::walk_start))]
fn compare_member(
    index: &[u8],
    contents: &[u8],
    before: &[Member],
    member: Member,
    table: usize,
    stop: usize,
    work: &mut [u8],
) -> Option<(Place, Place)>
    requires all_stand { AllStand index.now (length contents.now) 0 table (before.now ++ (member ∷ [])) × ((table < stop) × (stop ≤ length work.old)) }
    requires tells { Tells (part table stop work.old) (all_prepared index.now contents.now work.old before.now) }
    ensures shared_of { SharedOf (shared_in (all_prepared index.now contents.now work.old before.now)
        (prepared_in index.now contents.now work.old member) 1
        (prepared_in index.now contents.now work.old member).lines) result }
    ensures tells_after { TellsAfter result (part table stop work.new) (all_prepared index.now contents.now work.old (before.now ++ (member ∷ []))) }
    ensures work_unchanged { take table work.new ≡ take table work.old }
{
    let name = &index[member.name.start..member.name.end];
    let source = member.text();
    let mut cursor = lines::first();
    while let Some(found) = lines::next_heading(source.bytes(contents, work), cursor) {
        let heading = source.part(found.start, found.end);
        let number = anchor::number_of(heading.bytes(contents, work));
        if marks::mark_anchor(&mut work[table..stop], number, member.file) {
            let text = heading.bytes(contents, work);
            if let Some(second) = earlier::earlier(
                index, contents, work, before, name, text, table,
            ) {
                let first = Place {
                    file: member.file,
                    line: found.behind.line,
                };
                return Some((first, second));
            }
        }
        cursor = found.behind;
    }
    None
}

// The first heading of all members whose anchor an earlier member of another name has, and where that has it; None where there is none. The table of marks is made in the work buffer from a place up to another.
#[tactic(auto, using(crate::proofs::SharedLaws::turn_tells))]
pub fn compare(
    index: &[u8],
    contents: &[u8],
    members: &[Member],
    table: usize,
    stop: usize,
    work: &mut [u8],
) -> Option<(Place, Place)>
    requires { AllStand index.now (length contents.now) 0 table members.now × ((table < stop) × (stop ≤ length work.old)) }
    ensures shared_of { SharedOf (shared_from [] (all_prepared index.now contents.now work.old members.now)) result }
    ensures work_unchanged { take table work.new ≡ take table work.old }
{
    buffer::clear(&mut work[table..stop]);
    for (i, member) in members.iter().enumerate() {
        let before = &members[..i];
        if let Some(found) = compare_member(index, contents, before, *member, table, stop, work) {
            return Some(found);
        }
    }
    None
}
