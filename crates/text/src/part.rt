// A part of a text.

// From a place up to, not including, another.
#[derive(Clone, Copy, Default, PartialEq, Eq)]
pub struct Part {
    pub start: usize,
    pub end: usize,
}
