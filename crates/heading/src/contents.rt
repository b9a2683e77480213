// Hand-written contents of a member: which of its lines are dropped.
ghost use Rattle.std.specs.Prelude.{◌≡◌};
ghost use Rattle.heading.specs.Contents.{is_contents, drops as drops_line};

use crate::walk;
use crate::walk::LineKind;
use text::pattern;

// Whether a line is the heading of hand-written contents.
#[tactic(auto, unfolding(crate::specs::Contents::is_contents))]
pub fn is_hand_written_toc(line: &[u8]) -> bool
    ensures { result ≡ is_contents line.now }
{
    let LineKind::Heading { start, end, .. } = walk::split_heading(line) else {
        return false;
    };
    let title = &line[start..end];
    title.eq_ignore_ascii_case(b"contents") || title.eq_ignore_ascii_case(b"table of contents")
}

// Whether a line is dropped, where the line before it was dropped or not.
#[tactic(auto, using(crate::proofs::ContentsLaws::drops_other, crate::proofs::ContentsLaws::drops_hash))]
pub fn drops(within: bool, line: &[u8]) -> bool
    ensures { result ≡ drops_line within line.now }
{
    if pattern::starts_with(line, b"#") {
        is_hand_written_toc(line)
    } else {
        within
    }
}
