// The markers of a line, one after the other.
ghost use Rattle.std.specs.Prelude.{◌≡◌, ◌+◌, ◌≤◌, length, drop};
ghost use Rattle.text.specs.Pattern.{find as find_in};
ghost use Rattle.marker.specs.Marker.{text_of, mark_of, next_mark, CLOSE};

use crate::line::Line;
use crate::problem::Problem;
use text::part::Part;
use text::pattern;

// What is read at a marker: where a span's spec and text stand, or a problem.
#[derive(Clone, Copy)]
pub enum Mark {
    Marked { spec: Part, text: Part },
    Problem(Problem),
    // No further marker.
    End,
}

// The text of a span, and what follows it on the line, after a spec of j bytes.
#[tactic(auto, using(crate::proofs::Within::lengths), unfolding(crate::specs::Marker::text_of))]
fn text_mark(spec: Line, j: usize) -> Mark
    requires { j + 4 ≤ length spec.bytes.now }
    ensures { result ≡ text_of spec.entry.at j (drop (j + 4) spec.entry.bytes.now) (find_in CLOSE (drop (j + 4) spec.entry.bytes.now)) }
{
    let text = spec.from(j + 4);
    let b = text.bytes;
    match pattern::find(b, b"<!--[/]-->") {
        None => Mark::Problem(Problem::UnclosedSpan),
        Some(k) if pattern::contains(&b[..k], b"<!--[") => Mark::Problem(Problem::NestedMarker),
        Some(_) if j == 0 => Mark::Problem(Problem::EmptySpec),
        Some(k) => Mark::Marked {
            spec: Part {
                start: spec.at,
                end: spec.at + j,
            },
            text: Part {
                start: text.at,
                end: text.at + k,
            },
        },
    }
}

// What is read at a marker, where the line is read on behind its `<!--[`.
#[tactic(auto, using(crate::proofs::Within::lengths), unfolding(crate::specs::Marker::mark_of, crate::specs::Marker::spec_of))]
fn read_mark(line: Line) -> Mark
    ensures { result ≡ mark_of line.entry.at line.entry.bytes.now }
{
    if pattern::starts_with(line.bytes, b"/") {
        return Mark::Problem(Problem::StrayCloser);
    }
    match pattern::find(line.bytes, b"]-->") {
        Some(j) => text_mark(line, j),
        None => Mark::Problem(Problem::UnclosedSpec),
    }
}

// The first marker of what is left of a line.
#[tactic(auto, using(crate::proofs::Within::lengths), unfolding(crate::specs::Marker::next_mark, crate::specs::Marker::first_of))]
pub fn next_mark(line: Line) -> Mark
    ensures { result ≡ next_mark line.entry.at line.entry.bytes.now }
{
    match pattern::find(line.bytes, b"<!--[") {
        Some(i) => read_mark(line.from(i + 5)),
        None => Mark::End,
    }
}
