// The listing of a text in an output, or nothing of it. A first scan measures the rows and keeps what it finds in a log; where the log
// has all of it the rows are written from there, else by a second scan.
ghost use Rattle.std.specs.Prelude.{◌≡◌, map, length};
ghost use Rattle.text.specs.Ascii.{wide_line};
ghost use Rattle.rows.specs.Sheet.{sheet, written, behind as behind_of};
ghost use Rattle.event_log.specs.Log.{unpacked};
ghost use Rattle.listing.specs.ScanCall.{answer_of, output_of};

use answer::{Answer, Place, Refusal};
use event_log::sink::Sink;
use event_log::word;
use event_log::word::Kept;
use rows::Places;

// The places of rows of these lengths, one kind directly behind the other.
fn behind(lengths: Places) -> Places
    ensures { result ≡ behind_of lengths }
{
    Places {
        spans: 0,
        regions: lengths.spans,
        problems: rows::add(lengths.spans, lengths.regions),
    }
}

// Writes the rows of a log's words.
#[tactic(auto, using(crate::proofs::ListingLaws::logging))]
fn put_logged(words: &[usize], out: &mut [u8], at: Places)
    ensures { out.new ≡ (written (map unpacked words.now) (sheet at out.old)).bytes }
{
    let mut to = at;
    for word in words {
        to = rows::put(out, to, word::unpack(*word));
    }
}

// Writes the listing of a text without wide bytes, if it fits, with a log lent for what the scan finds.
fn list_with(s: &[u8], log: &mut [usize], out: &mut [u8]) -> Result<Answer, Refusal>
    requires { wide_line 1 s.now ≡ None }
    ensures value { result ≡ answer_of (length out.old) s.now }
    ensures out_after { out.new ≡ output_of result s.now out.old }
{
    let mut none = [0u8; 0];
    let mut measure = Sink {
        log,
        out: &mut none,
        at: Places {
            spans: 0,
            regions: 0,
            problems: 0,
        },
        kept: Kept {
            words: 0,
            whole: true,
        },
    };
    events::put_scan(s, &mut measure);
    let counted = measure.at;
    let found = measure.kept;
    let places = behind(counted);
    let length = rows::add(places.problems, counted.problems);
    if out.len() < length {
        return Err(Refusal::TextLimit(Place { file: 0, line: 0 }));
    }
    if found.whole {
        put_logged(&log[..found.words], out, places);
        return Ok(Answer::Accepted { length, files: 0 });
    }
    let mut no_log = [0usize; 0];
    let mut sink = Sink {
        log: &mut no_log,
        out,
        at: places,
        kept: found,
    };
    events::put_scan(s, &mut sink);
    Ok(Answer::Accepted { length, files: 0 })
}

// Writes the listing of a text without wide bytes, if it fits. A short text is not worth the clearing of a long log.
pub fn list(s: &[u8], out: &mut [u8]) -> Result<Answer, Refusal>
    requires { wide_line 1 s.now ≡ None }
    ensures value { result ≡ answer_of (length out.old) s.now }
    ensures out_after { out.new ≡ output_of result s.now out.old }
{
    if s.len() < 8192 {
        let mut log = [0usize; 64];
        return list_with(s, &mut log, out);
    }
    let mut log = [0usize; 1792];
    list_with(s, &mut log, out)
}
