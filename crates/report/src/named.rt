// The file that a line of a note or of the list names.
ghost use Rattle.std.specs.Prelude.{◌≡◌, ◌≤◌, ◌<◌, length, IsSome, IfSome, OnOk};
ghost use Rattle.std.specs.Io.KnownBytes.{Appends};
ghost use Rattle.text.specs.Lines.{pieces};
ghost use Rattle.station.specs.Station.{nth_line, shown};

use answer::Place;
use station::line;
use station::note::Note;
use station::shown::show;
use std::io;
use std::io::Write;

// What the place of a refusal may lie in: the list, or the notes, which lie in the contents.
#[derive(Clone, Copy)]
pub struct Input<'a> {
    pub list: &'a [u8],
    pub contents: &'a [u8],
    pub notes: &'a [Note],
}

impl<'a> Input<'a> {
    // A note, counted from 1; None where there is none.
    fn note(self, file: usize) -> Option<&'a [u8]> {
        let note = self.notes.get(file.checked_sub(1)?)?;
        self.contents.get(note.start..note.end)
    }

    // The name at a place: a line of the list, which is a name whatever stands on it, or the path of the region that opens on a line of a
    // note. None where there is no such note.
    pub fn name_at(self, place: Place) -> Option<&'a [u8]>
        ensures listed { place.file ≡ 0 → IsSome result }
        ensures name { place.file ≡ 0 → IfSome result (λ name. name.now ≡ nth_line place.line (pieces self.entry.list.now)) }
    {
        if place.file == 0 {
            return Some(line::line_at(self.list, place.line));
        }
        let opener = line::line_at(self.note(place.file)?, place.line);
        Some(line::named_on(opener))
    }
}

// A name as it is shown, if it is no longer than a path.
pub fn say_shown<W: Write>(to: &mut W, name: &[u8]) -> io::Result<()>
    ensures { OnOk result (0 < length name.now → length name.now ≤ 4096 → Appends (W.contents to.old) (W.contents to.new) (shown name.now)) }
{
    if name.is_empty() {
        return to.write_all(b"an empty name");
    }
    let mut room = [0u8; 4096];
    let Some(path) = room.get_mut(..name.len()) else {
        return to.write_all(b"a path of more than 4,096 bytes");
    };
    path.copy_from_slice(name);
    show(path);
    to.write_all(path)
}
