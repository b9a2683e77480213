// Where the notes lie, one behind the other.
use arrayvec::ArrayVec;

// Where a note starts and ends in the contents.
#[derive(Clone, Copy, Default)]
pub struct Note {
    pub start: usize,
    pub end: usize,
}

pub type Notes = ArrayVec<Note, 64>;
