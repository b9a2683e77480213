#![tactic(auto)]

// All that a scan finds, put into a sink.
ghost use Rattle.std.specs.Prelude.{◌≡◌, ◌+◌, ◌≤◌, length, drop};
ghost use Rattle.text.specs.Lines.{lines_from};
ghost use Rattle.scan.specs.Scan.{last_of, unclosed as unclosed_by, scan as scan_of};
ghost use Rattle.event_log.specs.Sink.{held, put_all};

use event_log::sink::Sink;
use marker::problem::Problem;
use scan::event::Event;
use scan::state::{Opener, State};
use scan::{seek, state};
use text::lines;

// The problem of a region that is open at the end.
#[tactic(auto, unfolding(event_log::specs::Sink::put_all))]
fn put_unclosed(region: Option<Opener>, sink: &mut Sink)
    ensures log_reference { sink.new.log.ghost_name ≡ sink.old.log.ghost_name }
    ensures out_reference { sink.new.out.ghost_name ≡ sink.old.out.ghost_name }
    ensures held { held sink.new ≡ put_all (unclosed_by region) (held sink.old) }
{
    if let Some(Opener { marker, .. }) = region {
        sink.put(Event::OfProblem {
            line: marker.line,
            problem: Problem::UnclosedRegion,
        });
    }
}

// The problems at the end. The lines from place a on, where n lines stand before it, are counted only for the last one's number.
fn put_last(state: State, s: &[u8], a: usize, n: usize, sink: &mut Sink)
    requires { (a ≤ length s.now) × (n ≤ a) }
    ensures log_reference { sink.new.log.ghost_name ≡ sink.old.log.ghost_name }
    ensures out_reference { sink.new.out.ghost_name ≡ sink.old.out.ghost_name }
    ensures held { held sink.new ≡ put_all (last_of state (n + length (lines_from a (drop a s.now)))) (held sink.old) }
{
    put_unclosed(state.region, sink);
    if state.fence {
        sink.put(Event::OfProblem {
            line: n + lines::line_count(&s[a..]),
            problem: Problem::UnclosedFence,
        });
    }
}

// All that a scan of s finds.
pub fn put_scan(s: &[u8], sink: &mut Sink)
    ensures log_reference { sink.new.log.ghost_name ≡ sink.old.log.ghost_name }
    ensures out_reference { sink.new.out.ghost_name ≡ sink.old.out.ghost_name }
    ensures held { held sink.new ≡ put_all (scan_of s.now) (held sink.old) }
{
    let mut state = state::begin();
    let mut a = 0;
    let mut n = 0;
    while let Some(line) = seek::next_line(s, a, n) {
        let text = line.within(s);
        let kind = state::kind_at(state, text);
        line_events::put_line(state, line.number, text, kind, sink);
        state = state::after(state, line.number, line.start, kind);
        a = line.next;
        n = line.number;
    }
    put_last(state, s, a, n, sink);
}
