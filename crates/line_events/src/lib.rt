#![tactic(auto)]

// What one line of a text gives, put into a sink.
ghost use Rattle.std.specs.Prelude.{◌≡◌, map};
ghost use Rattle.scan.specs.Scan.{read_line, span_events, closed_by, kind_at, events_of};
ghost use Rattle.event_log.specs.Sink.{held, put_all};

use event_log::sink::Sink;
use marker::line::{Kind, Line};
use marker::problem::Problem;
use marker::span;
use marker::span::Mark;
use scan::event::{Event, Span};
use scan::state;
use scan::state::{Opener, State};

// The spans of line n: read left to right, stopping the line at its first problem, which is answered; None where there is none.
#[tactic(auto, using(crate::proofs::SpanLaws::reading))]
fn put_spans(line: Line, n: usize, sink: &mut Sink) -> Option<Problem>
    ensures log_reference { sink.new.log.ghost_name ≡ sink.old.log.ghost_name }
    ensures out_reference { sink.new.out.ghost_name ≡ sink.old.out.ghost_name }
    ensures spans { held sink.new ≡ put_all (map Event.OfSpan (read_line n line.entry.at line.entry.bytes.now).spans) (held sink.old) }
    ensures stop { result ≡ (read_line n line.entry.at line.entry.bytes.now).stop }
{
    let mut i = 0;
    // Document 01 asks for this form by name: a labelled loop over a line's markers, left with what ends the reading.
    'markers: loop {
        match span::next_mark(line.from(i)) {
            Mark::Marked { spec, text } => {
                let span = Span {
                    line: n,
                    spec,
                    text,
                };
                sink.put(Event::OfSpan(span));
                i = text.end + 10 - line.at;
            }
            Mark::Problem(problem) => break 'markers Some(problem),
            Mark::End => break 'markers None,
        }
    }
}

// The spans of line n and the problem that stopped their reading.
#[tactic(auto, using(crate::proofs::SpanLaws::reading))]
fn put_marked(line: Line, n: usize, sink: &mut Sink)
    ensures log_reference { sink.new.log.ghost_name ≡ sink.old.log.ghost_name }
    ensures out_reference { sink.new.out.ghost_name ≡ sink.old.out.ghost_name }
    ensures held { held sink.new ≡ put_all (span_events n line.entry.at line.entry.bytes.now) (held sink.old) }
{
    if let Some(problem) = put_spans(line, n, sink) {
        sink.put(Event::OfProblem { line: n, problem });
    }
}

// The region that line n, at place o, closes.
#[tactic(auto, unfolding(event_log::specs::Sink::put_all))]
fn put_closed(region: Option<Opener>, n: usize, o: usize, sink: &mut Sink)
    ensures log_reference { sink.new.log.ghost_name ≡ sink.old.log.ghost_name }
    ensures out_reference { sink.new.out.ghost_name ≡ sink.old.out.ghost_name }
    ensures held { held sink.new ≡ put_all (closed_by n o region) (held sink.old) }
{
    if let Some(opener) = region {
        sink.put(Event::OfRegion(state::closed(opener, n, o)));
    }
}

// What line n, of a kind, gives.
#[tactic(auto, using(crate::proofs::SpanLaws::reading), unfolding(scan::specs::Scan::events_of, event_log::specs::Sink::put_all))]
pub fn put_line(state: State, n: usize, line: Line, kind: Kind, sink: &mut Sink)
    requires { kind ≡ kind_at state line.at line.bytes.now }
    ensures log_reference { sink.new.log.ghost_name ≡ sink.old.log.ghost_name }
    ensures out_reference { sink.new.out.ghost_name ≡ sink.old.out.ghost_name }
    ensures held { held sink.new ≡ put_all (events_of state n line.entry.at line.entry.bytes.now kind) (held sink.old) }
{
    match kind {
        Kind::Plain | Kind::Fence | Kind::Opens(_) => {}
        Kind::Fault(problem) => sink.put(Event::OfProblem { line: n, problem }),
        Kind::Closes => put_closed(state.region, n, line.at, sink),
        Kind::Spans(i) => put_marked(line.from(i), n, sink),
    }
}
