#![tactic(auto)]

// What a call answers: document 01's acceptance, "no region" and numbered refusals with their places.
ghost use Rattle.std.specs.Prelude.{◌≡◌};
ghost use Rattle.answer.specs.Answer.{number as number_of, place_of, second as second_of, numbers as numbers_of};

// A file, as its record's number from 1, or 0, and a line from 1, or 0. No Options: document 01 gives a place as two numbers, 0 where there
// is no file or line, and so C callers have it.
#[derive(Clone, Copy)]
pub struct Place {
    pub file: usize,
    pub line: usize,
}

// Each refusal of document 01's table, in its order, with the parts of its places that vary.
#[derive(Clone, Copy)]
pub enum Refusal {
    IndexLine(usize),
    TooManyRecords,
    PastContents(usize),
    NameTwice(usize),
    WideByte(Place),
    NameForm,
    ListForm,
    Sizes,
    NestedRegion(Place),
    FragmentMarker(Place),
    UnclosedRegion(Place),
    PeerWithoutHeading(Place),
    OnChain(Place),
    Absent(Place),
    Allowance(Place),
    HeadingLevel(Place),
    TextLimit(Place),
    NoTitle(usize),
    SharedAnchor(Place, Place),
}

// An acceptance, or "no region". No Option, since document 01 asks for the answer's cases by name, each with its number.
#[derive(Clone, Copy)]
pub enum Answer {
    Accepted { length: usize, files: usize },
    NoRegion,
}

impl Refusal {
    // Its number in the table.
    pub fn number(self) -> u64
        ensures { result ≡ number_of self }
    {
        match self {
            Refusal::IndexLine(_) => 1,
            Refusal::TooManyRecords => 2,
            Refusal::PastContents(_) => 3,
            Refusal::NameTwice(_) => 4,
            Refusal::WideByte(_) => 5,
            Refusal::NameForm => 6,
            Refusal::ListForm => 7,
            Refusal::Sizes => 8,
            Refusal::NestedRegion(_) => 9,
            Refusal::FragmentMarker(_) => 10,
            Refusal::UnclosedRegion(_) => 11,
            Refusal::PeerWithoutHeading(_) => 12,
            Refusal::OnChain(_) => 13,
            Refusal::Absent(_) => 14,
            Refusal::Allowance(_) => 15,
            Refusal::HeadingLevel(_) => 16,
            Refusal::TextLimit(_) => 17,
            Refusal::NoTitle(_) => 18,
            Refusal::SharedAnchor(_, _) => 19,
        }
    }

    // Its place: file 0 and line 0 where it has none.
    pub fn place(self) -> Place
        ensures { result ≡ place_of self }
    {
        match self {
            Refusal::IndexLine(line) | Refusal::PastContents(line) | Refusal::NameTwice(line) => {
                Place { file: 0, line }
            }
            Refusal::TooManyRecords => Place { file: 0, line: 65 },
            Refusal::NameForm | Refusal::ListForm | Refusal::Sizes => Place { file: 0, line: 0 },
            Refusal::NoTitle(file) => Place { file, line: 0 },
            Refusal::WideByte(place)
            | Refusal::NestedRegion(place)
            | Refusal::FragmentMarker(place)
            | Refusal::UnclosedRegion(place)
            | Refusal::PeerWithoutHeading(place)
            | Refusal::OnChain(place)
            | Refusal::Absent(place)
            | Refusal::Allowance(place)
            | Refusal::HeadingLevel(place)
            | Refusal::TextLimit(place)
            | Refusal::SharedAnchor(place, _) => place,
        }
    }

    // The place of the other heading; file 0 and line 0 for all but a shared anchor.
    pub fn second(self) -> Place
        ensures { result ≡ second_of self }
    {
        match self {
            Refusal::SharedAnchor(_, second) => second,
            _ => Place { file: 0, line: 0 },
        }
    }
}

// The answer as the six numbers that a C caller is given: 0, length, files taken in; 1; or 2, number, file, line, second file, second line.
pub fn numbers(answer: Result<Answer, Refusal>) -> [u64; 6]
    ensures { result ≡ numbers_of answer }
{
    match answer {
        Ok(Answer::Accepted { length, files }) => [0, length as u64, files as u64, 0, 0, 0],
        Ok(Answer::NoRegion) => [1, 0, 0, 0, 0, 0],
        Err(refusal) => {
            let at = refusal.place();
            let other = refusal.second();
            [
                2,
                refusal.number(),
                at.file as u64,
                at.line as u64,
                other.file as u64,
                other.line as u64,
            ]
        }
    }
}
