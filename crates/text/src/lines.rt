// Lines of a text, as `lines()` and as `split('\n')` give them.
ghost use Rattle.std.specs.Prelude.{◌≡◌, ◌∷◌, ◌+◌, ◌≤◌, ◌<◌, length, drop, eqb};
ghost use Rattle.text.specs.Bytes.{part, is, first};
ghost use Rattle.text.specs.Lines.{LF, lines, line_end, line_next, pieces, pieces_after, ended};
ghost use Rattle.std.specs.Iterator.{YieldsFirstRef, item_count};

use crate::bytes;
use std::marker::Model;

// Where a line ends, without its LF and a CR before that, and where the next one starts.
#[derive(Clone, Copy)]
pub struct LineEnds {
    pub end: usize,
    pub next: usize,
}

// The line that starts at a place, where no LF stands before another place, seen.
pub fn line(s: &[u8], from: usize, seen: usize) -> LineEnds
    requires { (from < length s.now) × ((seen ≤ length s.now) × (seen + first (is LF) (drop seen s.now) ≡ from + first (is LF) (drop from s.now))) }
    ensures end_value { (result.end ≡ from + line_end (drop from s.now)) × (result.next ≡ from + line_next (drop from s.now)) }
    ensures from_le_end { (from ≤ result.end) × ((result.end ≤ result.next) × ((from < result.next) × (result.next ≤ length s.now))) }
{
    let e = bytes::find_byte(s, seen, b'\n');
    if e == s.len() {
        return LineEnds { end: e, next: e };
    }
    if from < e && s[e - 1] == b'\r' {
        return LineEnds {
            end: e - 1,
            next: e + 1,
        };
    }
    LineEnds {
        end: e,
        next: e + 1,
    }
}

// How many lines s has.
pub fn line_count(s: &[u8]) -> usize
    ensures { (result ≡ length (lines s.now)) × (result ≤ length s.now) }
{
    let n = bytes::count_byte(s, b'\n');
    if s.is_empty() || s[s.len() - 1] == b'\n' {
        return n;
    }
    n + 1
}

// Where the piece between LFs that starts at a place ends, and whether it is the last.
#[derive(Clone, Copy)]
pub struct PieceEnd {
    pub end: usize,
    pub last: bool,
}

pub fn piece(s: &[u8], from: usize) -> PieceEnd
    requires { from ≤ length s.now }
    ensures s_value { pieces (drop from s.now) ≡ part from result.end s.now ∷ pieces_after result.last result.end s.now }
    ensures from_le_end { (from ≤ result.end) × ((result.end ≤ length s.now) × (result.last ≡ eqb result.end (length s.now))) }
{
    let e = bytes::find_byte(s, from, b'\n');
    PieceEnd {
        end: e,
        last: e == s.len(),
    }
}

// The pieces between LFs, one after the other: those from a place on.
#[derive(Drop)]
pub struct Split<'a> {
    text: &'a [u8],
    at: usize,
}

impl<'a> Model for Split<'a> {
    ghost use Rattle.std.specs.Prelude.{ℕ, List};
    ghost use Rattle.text.specs.Lines.{pieces_from};

    ghost Value = { List (List ℕ) };

    ghost view = { λ l. pieces_from l.text.now l.at };
}

impl<'a> Iterator for Split<'a> {
    type Item = &'a [u8];

    ghost next_gives = { YieldsFirstRef (λ left. left) };

    ghost remaining = { item_count (λ left. left) };

    #[tactic(auto, using(crate::proofs::PieceLaws::more_pieces, crate::proofs::PieceLaws::no_pieces))]
    fn next(&mut self) -> Option<&'a [u8]> {
        let start = self.at;
        if self.text.len() < start {
            return None;
        }
        let end = bytes::find_byte(self.text, start, b'\n');
        self.at = end + 1;
        Some(&self.text[start..end])
    }
}

// The pieces between LFs of a text.
#[tactic(auto, using(crate::proofs::PieceLaws::all_pieces, crate::proofs::PieceLaws::pieces_few))]
pub fn pieces(s: &[u8]) -> Split<'_>
    ensures value { result ≡ pieces s.now }
    ensures few { length result ≤ length s.now + 1 }
{
    Split { text: s, at: 0 }
}

// The pieces that an LF ends, one after the other: those from a place on.
#[derive(Drop)]
pub struct EndedLines<'a> {
    text: &'a [u8],
    at: usize,
}

impl<'a> Model for EndedLines<'a> {
    ghost use Rattle.std.specs.Prelude.{ℕ, List, ◌≤◌, length, drop};
    ghost use Rattle.text.specs.Lines.{ended};

    ghost Value = { List (List ℕ) };

    ghost view = { λ l. ended (drop l.at l.text.now) };

    ghost invariant = { λ l. l.at ≤ length l.text.now };
}

impl<'a> Iterator for EndedLines<'a> {
    type Item = &'a [u8];

    ghost next_gives = { YieldsFirstRef (λ left. left) };

    ghost remaining = { item_count (λ left. left) };

    #[tactic(auto, using(crate::proofs::PieceLaws::more_ended, crate::proofs::PieceLaws::no_ended))]
    fn next(&mut self) -> Option<&'a [u8]> {
        let start = self.at;
        let end = bytes::find_byte(self.text, start, b'\n');
        if end == self.text.len() {
            return None;
        }
        self.at = end + 1;
        Some(&self.text[start..end])
    }
}

// The pieces of a text that an LF ends: all but the last.
#[tactic(auto, using(crate::proofs::PieceLaws::ended_few))]
pub fn ended(s: &[u8]) -> EndedLines<'_>
    ensures value { result ≡ ended s.now }
    ensures few { length result ≤ length s.now }
{
    EndedLines { text: s, at: 0 }
}
