#![tactic(auto)]

// A text that is put into the work buffer, piece after piece, and the texts that are read meanwhile.
ghost use Rattle.std.specs.Prelude.{◌≡◌, ◌+◌, ◌-◌, ◌≤◌, length};
ghost use Rattle.put.specs.Put.{source_text, part_of, Inside};

pub mod line;
pub mod running;

// A text that lies in the contents, or in the work buffer from the limit on.
#[derive(Clone, Copy, Default)]
pub struct Source {
    pub work: bool,
    pub start: usize,
    pub end: usize,
}

impl Source {
    // The bytes of the source.
    pub fn bytes<'a>(self, contents: &'a [u8], work: &'a [u8]) -> &'a [u8]
        requires { Inside self 0 (length contents.now) (length work.now) }
        ensures text { result.now ≡ source_text self contents.now work.now }
        ensures len { length result.now ≡ self.end - self.start }
    {
        let buffer = if self.work { work } else { contents };
        &buffer[self.start..self.end]
    }

    // A part of the source.
    pub fn part(self, a: usize, e: usize) -> Source
        requires { (a ≤ e) × (self.start + e ≤ self.end) }
        ensures { result ≡ part_of self a e }
    {
        Source {
            work: self.work,
            start: self.start + a,
            end: self.start + e,
        }
    }
}
