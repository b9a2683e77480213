// Where what a scan finds goes: its rows into a buffer, as far as they fit, and its words into a log.
ghost use Rattle.std.specs.Prelude.{◌≡◌};
ghost use Rattle.event_log.specs.Sink.{held, put as put_in};

use crate::word;
use crate::word::Kept;
use rows::Places;
use scan::event::Event;

// The log and the buffer, where the next rows go, and how much the log has.
#[derive(Drop)]
pub struct Sink<'l, 'o> {
    pub log: &'l mut [usize],
    pub out: &'o mut [u8],
    pub at: Places,
    pub kept: Kept,
}

impl Sink<'_, '_> {
    // Writes the row of an event, and keeps the event.
    pub fn put(&mut self, event: Event)
        ensures log_reference { self.new.log.ghost_name ≡ self.old.log.ghost_name }
        ensures out_reference { self.new.out.ghost_name ≡ self.old.out.ghost_name }
        ensures held { held self.new ≡ put_in event (held self.old) }
    {
        self.at = rows::put(self.out, self.at, event);
        self.kept = word::note(self.log, self.kept, event);
    }
}
