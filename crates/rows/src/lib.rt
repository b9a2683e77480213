#![tactic(auto)]

// The rows of a listing, written into one buffer at three places, one a kind.
ghost use Rattle.std.specs.Prelude.{◌≡◌, ◌≤◌, length, drop};
ghost use Rattle.rows.specs.Row.{row_of, row as row_of_event};
ghost use Rattle.rows.specs.Sheet.{add as add_to, put_at, sheet, write};

use buffer::decimal;
use scan::event::{Event, Span};

// Where the next span, region and problem go.
#[derive(Clone, Copy)]
pub struct Places {
    pub spans: usize,
    pub regions: usize,
    pub problems: usize,
}

// The sum, or the largest number where it is larger.
pub fn add(a: usize, n: usize) -> usize
    ensures { result ≡ add_to a n }
{
    a.saturating_add(n)
}

// Writes the row of a word and at most 5 fields at the end of a buffer, from its last byte to its first, and answers
// where it starts. The longest has a word of 7 bytes, 5 fields of a tab and 20 digits each, and LF.
fn format(row: &mut [u8], word: &[u8], fields: &[usize]) -> usize
    requires { (length word.now ≤ 7) × ((length fields.now ≤ 5) × (113 ≤ length row.old)) }
    ensures { (drop result row.new ≡ row_of word.now fields.now) × (result ≤ length row.old) }
{
    let mut at = row.len() - 1;
    row[at] = b'\n';
    for field in fields.iter().rev() {
        at = decimal::put_before(row, at, *field) - 1;
        row[at] = b'\t';
    }
    at -= word.len();
    buffer::copy(word, row, at);
    at
}

// Writes the row of an event so.
#[tactic(auto, unfolding(crate::specs::Row::row))]
fn format_event(row: &mut [u8], event: Event) -> usize
    requires { 113 ≤ length row.old }
    ensures { (drop result row.new ≡ row_of_event event) × (result ≤ length row.old) }
{
    match event {
        Event::OfSpan(Span { line, spec, text }) => {
            let fields = [line, spec.start, spec.end, text.start, text.end];
            format(row, b"span", &fields)
        }
        Event::OfRegion(g) => {
            let peer = usize::from(g.peer);
            let fields = [g.opener.line, g.closer.line, g.path.start, g.path.end, peer];
            format(row, b"region", &fields)
        }
        Event::OfProblem { line, problem } => { format(row, b"problem", &[line, problem.number()]) }
    }
}

// Writes an event's row at a place if it fits there, and answers the place after it.
fn put_row(out: &mut [u8], at: usize, event: Event) -> usize
    ensures { (out.new ≡ put_at at (row_of_event event) out.old) × (result ≡ add_to at (length (row_of_event event))) }
{
    let mut row = [0u8; 128];
    let start = format_event(&mut row, event);
    let n = 128 - start;
    if n <= out.len() && at <= out.len() - n {
        return buffer::copy(&row[start..], out, at);
    }
    add(at, n)
}

// Writes the row of an event at its kind's place if it fits there, and answers the places after it.
#[tactic(auto, unfolding(crate::specs::Sheet::write))]
pub fn put(out: &mut [u8], at: Places, event: Event) -> Places
    ensures { sheet result out.new ≡ write event (sheet at out.old) }
{
    match event {
        Event::OfSpan(_) => Places {
            spans: put_row(out, at.spans, event),
            ..at
        },
        Event::OfRegion(_) => Places {
            regions: put_row(out, at.regions, event),
            ..at
        },
        Event::OfProblem { .. } => Places {
            problems: put_row(out, at.problems, event),
            ..at
        },
    }
}
