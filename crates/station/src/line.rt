// A line of a note by its number, and the path that a region's opener has.
ghost use Rattle.std.specs.Prelude.{◌≡◌};
ghost use Rattle.text.specs.Lines.{pieces};
ghost use Rattle.station.specs.Station.{nth_line, named_on};

use marker::line::{Kind, Line};
use text::lines;

// Line n, counted from 1, between LFs; nothing where there is none.
#[tactic(auto, using(crate::proofs::StationLaws::passing))]
pub fn line_at(s: &[u8], n: usize) -> &[u8]
    ensures { result.now ≡ nth_line n (pieces s.now) }
{
    if n == 0 {
        return b"";
    }
    let mut start = 0;
    for _passed in 1..n {
        let line = lines::piece(s, start);
        if line.last {
            return b"";
        }
        start = line.end + 1;
    }
    let line = lines::piece(s, start);
    &s[start..line.end]
}

// The path on a line that opens a region; the whole line where it opens none.
#[tactic(auto, using(crate::proofs::StationLaws::naming))]
pub fn named_on(line: &[u8]) -> &[u8]
    ensures { result.now ≡ named_on line.now }
{
    match marker::line::kind_of(Line { at: 0, bytes: line }, false, false) {
        Kind::Opens(fragment) => &line[fragment.path.start..fragment.path.end],
        _ => line,
    }
}
