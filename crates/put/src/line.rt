// What a line becomes.
ghost use Rattle.std.specs.Prelude.{◌≡◌, ◌-◌, ◌≤◌, None};
ghost use Rattle.put.specs.NewText.{KindIn, new_text_of};

use heading::level;
use heading::walk::LineKind;

// What a line becomes: a heading with a level, or no heading; and where its text starts and ends.
#[derive(Clone, Copy)]
pub struct NewText {
    pub level: Option<usize>,
    pub start: usize,
    pub end: usize,
}

fn same_text(start: usize, end: usize) -> NewText
    ensures { result ≡ record { level = None; start = start; end = end } }
{
    NewText {
        level: None,
        start,
        end,
    }
}

// What a line becomes under a shift, where it stands from a up to e.
pub fn new_text(kind: LineKind, shift: i32, a: usize, e: usize) -> NewText
    requires { KindIn (e - a) kind }
    ensures { result ≡ new_text_of shift a e kind }
{
    let LineKind::Heading { level, start, end } = kind else {
        return same_text(a, e);
    };
    match level::shifted(level, shift) {
        Some(moved) => NewText {
            level: Some(moved),
            start: a + start,
            end: a + end,
        },
        None => same_text(a, e),
    }
}
