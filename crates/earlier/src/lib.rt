#![tactic(auto)]

// The anchors of earlier members: where a member of another name has the anchor of a heading.
ghost use Rattle.std.specs.Prelude.{◌≡◌, ◌+◌, ◌≤◌, length};
ghost use Rattle.anchor.specs.Anchor.{slug};
ghost use Rattle.member.specs.Lines.{kept_lines};
ghost use Rattle.members.specs.Members.{all_prepared, AllStand};
ghost use Rattle.earlier.specs.Earlier.{line_of, earlier as earlier_of};

use answer::Place;
use member::lines;
use members::Member;
use text::pattern;

// The line of the first heading of a text that has the anchor of a heading's text; None where there is none.
#[tactic(auto, using(crate::proofs::LineLaws::lines))]
fn anchor_line(text: &[u8], heading: &[u8]) -> Option<usize>
    ensures { result ≡ line_of (slug heading.now) 1 (kept_lines text.now) }
{
    let mut cursor = lines::first();
    while let Some(found) = lines::next_heading(text, cursor) {
        if anchor::same_anchor(heading, &text[found.start..found.end]) {
            return Some(found.behind.line);
        }
        cursor = found.behind;
    }
    None
}

// Where one of the members before a member that has another name than it has the anchor of a heading's text; None where none has it.
#[tactic(auto, using(crate::proofs::EarlierLaws::searching))]
pub fn earlier(
    index: &[u8],
    contents: &[u8],
    work: &[u8],
    members: &[Member],
    name: &[u8],
    heading: &[u8],
    table: usize,
) -> Option<Place>
    requires { AllStand index.now (length contents.now) 0 table members.now × (table ≤ length work.now) }
    ensures { result ≡ earlier_of name.now (slug heading.now) (all_prepared index.now contents.now work.now members.now) }
{
    for member in members {
        let other = &index[member.name.start..member.name.end];
        if !pattern::equals(other, name) {
            let text = member.text().bytes(contents, work);
            if let Some(line) = anchor_line(text, heading) {
                return Some(Place {
                    file: member.file,
                    line,
                });
            }
        }
    }
    None
}
