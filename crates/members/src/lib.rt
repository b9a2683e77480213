#![tactic(auto)]

// The members of an assembly, and what is known of each.
ghost use Rattle.std.specs.Prelude.{◌≡◌, ◌+◌, ◌≤◌};
ghost use Rattle.members.specs.Members.{text_source, title_source};

use arrayvec::ArrayVec;
use outline::Outline;
use put::Source;
use text::part::Part;

// Where its name stands in the index, its file's number for places, where its text lies, and once it is prepared its outline.
#[derive(Clone, Copy, Default)]
pub struct Member {
    pub name: Part,
    pub file: usize,
    pub source: Source,
    pub outline: Outline,
}

// An assembly has at most 64 members.
pub type Members = ArrayVec<Member, 64>;

// The index, the repository's URL and the members in order.
#[derive(Clone, Copy)]
pub struct Assembly<'a> {
    pub index: &'a [u8],
    pub url: &'a [u8],
    pub members: &'a [Member],
}

impl Member {
    // Where its lines lie, up to the last that is not blank.
    pub fn text(self) -> Source
        requires { self.source.start + self.outline.end ≤ self.source.end }
        ensures { result ≡ text_source self }
    {
        self.source.part(0, self.outline.end)
    }

    // Where its title's text lies.
    pub fn title(self) -> Source
        requires { (self.outline.title.start ≤ self.outline.title.end) × (self.source.start + self.outline.title.end ≤ self.source.end) }
        ensures { result ≡ title_source self }
    {
        self.source
            .part(self.outline.title.start, self.outline.title.end)
    }
}
