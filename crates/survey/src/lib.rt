#![tactic(auto)]

// One pass over a file as it is handed in: a problem that refuses it, no region, or regions.
ghost use Rattle.std.specs.Prelude.{◌≡◌, List, ℕ};
ghost use Rattle.index.specs.Index.{file_of};
ghost use Rattle.regions.specs.Regions.{scanned};
ghost use Rattle.survey.specs.Surveys.{survey_of, refusal_at, survey_end};

use answer::{Place, Refusal};
use marker::line::Kind;
use marker::problem::Problem;
use scan::region::Cursor;
use scan::state::Opener;
use scan::{seek, state};

#[derive(Clone, Copy)]
pub enum Surveyed {
    NoRegion,
    Regions,
}

// The refusal that a line of a kind is, at its place; None where it is none.
fn refusal_at(place: Place, kind: Kind) -> Option<Refusal>
    ensures { result ≡ refusal_at place kind }
{
    match kind {
        Kind::Fault(Problem::NestedRegion) => Some(Refusal::NestedRegion(place)),
        Kind::Fault(Problem::FragmentMarker) => Some(Refusal::FragmentMarker(place)),
        _ => None,
    }
}

// The answer at the text's end, where a region is open or not, and one was closed before or not.
fn at_end(region: Option<Opener>, any: bool, file: usize) -> Result<Surveyed, Refusal>
    ensures { result ≡ survey_end any file region }
{
    match region {
        Some(opener) => Err(Refusal::UnclosedRegion(Place {
            file,
            line: opener.marker.line,
        })),
        None if any => Ok(Surveyed::Regions),
        None => Ok(Surveyed::NoRegion),
    }
}

// What a scan of a file tells a fill: whether it has a region, or the first of the refusals 9 to 11. The file's number is for places.
pub fn survey(s: &[u8], file: usize) -> Result<Surveyed, Refusal>
    ensures { (name : List ℕ) → result ≡ survey_of (scanned (file_of file name s.now)) }
{
    let mut any = false;
    let mut state = state::begin();
    let mut cursor = Cursor { at: 0, line: 0 };
    while let Some(line) = seek::next_line(s, cursor.at, cursor.line) {
        let place = Place {
            file,
            line: line.number,
        };
        let kind = state::kind_at(state, line.within(s));
        if let Some(refusal) = refusal_at(place, kind) {
            return Err(refusal);
        }
        any |= matches!(kind, Kind::Closes);
        state = state::after(state, line.number, line.start, kind);
        cursor = Cursor {
            at: line.next,
            line: line.number,
        };
    }
    at_end(state.region, any, file)
}
