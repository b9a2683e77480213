// What a scan finds. Lines count from 1; a place is the count of the bytes before it.

use marker::problem::Problem;
use text::part::Part;

// A line's number, and where it starts.
#[derive(Clone, Copy, PartialEq, Eq)]
pub struct LineStart {
    pub line: usize,
    pub at: usize,
}

#[derive(Clone, Copy, PartialEq, Eq)]
pub struct Span {
    pub line: usize,
    pub spec: Part,
    pub text: Part,
}

// A whole region: its marker lines, and its path.
#[derive(Clone, Copy, PartialEq, Eq)]
pub struct Region {
    pub opener: LineStart,
    pub closer: LineStart,
    pub path: Part,
    pub peer: bool,
}

#[derive(Clone, Copy, PartialEq, Eq)]
pub enum Event {
    OfSpan(Span),
    OfRegion(Region),
    OfProblem { line: usize, problem: Problem },
}
