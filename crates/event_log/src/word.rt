// Events as words in a log. A word has a kind, a line, a place and two short numbers; an event that it does not hold is not kept.
ghost use Rattle.std.specs.Prelude.{◌≡◌, ◌<◌, length};
ghost use Rattle.event_log.specs.Log.{word as word_of, gap as gap_of, region_kind, span_at, region_at, span_word, region_word, event_word, shown, packed, unpacked, log_of, added, note as noted};

use marker::problem::Problem;
use scan::event::{Event, LineStart, Region, Span};
use text::part::Part;

// How many words a log has, and whether every event so far is among them.
#[derive(Clone, Copy)]
pub struct Kept {
    pub words: usize,
    pub whole: bool,
}

// The word of a kind (2 bits), a line (18), a place (22) and two short numbers (11 each).
#[tactic(auto, unfolding(crate::specs::Log::word))]
fn word(kind: usize, line: usize, place: usize, a: usize, b: usize) -> usize
    ensures { result ≡ word_of kind line place a b }
{
    let at = line % 262144 * 4194304 + place % 4194304;
    ((at * 2048 + a % 2048) * 2048 + b % 2048) * 4 + kind % 4
}

// What b is more than a, up to multiples of 2048.
#[tactic(auto, unfolding(crate::specs::Log::gap))]
fn gap(a: usize, b: usize) -> usize
    ensures { result ≡ gap_of a b }
{
    b % 2048 + 2048 - a % 2048
}

fn region_kind(peer: bool) -> usize
    ensures { result ≡ region_kind peer }
{
    if peer { 2 } else { 1 }
}

#[tactic(auto, unfolding(crate::specs::Log::span_word))]
fn span_word(x: Span) -> usize
    ensures { result ≡ span_word x }
{
    let spec = x.spec;
    let text = x.text;
    word(
        0,
        x.line,
        spec.start,
        gap(spec.start, spec.end),
        gap(text.start, text.end),
    )
}

#[tactic(auto, unfolding(crate::specs::Log::region_word))]
fn region_word(g: Region) -> usize
    ensures { result ≡ region_word g }
{
    let opener = g.opener;
    let closer = g.closer;
    let path = g.path;
    word(
        region_kind(g.peer),
        opener.line,
        path.start,
        gap(path.start, path.end),
        gap(opener.line, closer.line),
    )
}

#[tactic(auto, unfolding(crate::specs::Log::span_at))]
fn span_at(w: usize) -> Span
    ensures { result ≡ span_at w }
{
    let start = w / 16777216 % 4194304;
    let end = start + w / 8192 % 2048;
    Span {
        line: w / 70368744177664,
        spec: Part { start, end },
        text: Part {
            start: end + 4,
            end: end + 4 + w / 4 % 2048,
        },
    }
}

#[tactic(auto, unfolding(crate::specs::Log::region_at))]
fn region_at(w: usize) -> Region
    ensures { result ≡ region_at w }
{
    let line = w / 70368744177664;
    let start = w / 16777216 % 4194304;
    Region {
        opener: LineStart { line, at: 0 },
        closer: LineStart {
            line: line + w / 4 % 2048,
            at: 0,
        },
        path: Part {
            start,
            end: start + w / 8192 % 2048,
        },
        peer: w % 4 == 2,
    }
}

// The event of a word.
#[tactic(auto, unfolding(crate::specs::Log::unpacked))]
pub fn unpack(w: usize) -> Event
    ensures { result ≡ unpacked w }
{
    match w % 4 {
        0 => Event::OfSpan(span_at(w)),
        3 => Event::OfProblem {
            line: w / 70368744177664,
            problem: Problem::of_number(w / 4 % 2048),
        },
        _ => Event::OfRegion(region_at(w)),
    }
}

// An event as its row shows it: the lines of a region's markers, and not where they start.
fn shown(event: Event) -> Event
    ensures { result ≡ shown event }
{
    match event {
        Event::OfRegion(region) => Event::OfRegion(Region {
            opener: LineStart {
                at: 0,
                ..region.opener
            },
            closer: LineStart {
                at: 0,
                ..region.closer
            },
            ..region
        }),
        _ => event,
    }
}

fn event_word(event: Event) -> usize
    ensures { result ≡ event_word event }
{
    match event {
        Event::OfSpan(x) => span_word(x),
        Event::OfRegion(g) => region_word(g),
        Event::OfProblem { line, problem } => word(3, line, 0, 0, problem.number()),
    }
}

// The word of an event, if it gives back what the event's row shows.
#[tactic(auto, unfolding(crate::specs::Log::packed))]
pub fn pack(event: Event) -> Option<usize>
    ensures { result ≡ packed event }
{
    let w = event_word(event);
    (unpack(w) == shown(event)).then_some(w)
}

// Adds a word to a log that has room for it.
fn add(log: &mut [usize], words: usize, packed: Option<usize>) -> Kept
    requires { words < length log.old }
    ensures { log_of result log.new ≡ added packed words log.old }
{
    match packed {
        Some(w) => {
            log[words] = w;
            Kept {
                words: words + 1,
                whole: true,
            }
        }
        None => Kept {
            words,
            whole: false,
        },
    }
}

// Keeps an event, if all before it were kept and the log has room for it.
#[tactic(auto, unfolding(crate::specs::Log::note))]
pub fn note(log: &mut [usize], kept: Kept, event: Event) -> Kept
    ensures { log_of result log.new ≡ noted event (log_of kept log.old) }
{
    if kept.whole && kept.words < log.len() {
        return add(log, kept.words, pack(event));
    }
    Kept {
        whole: false,
        ..kept
    }
}
