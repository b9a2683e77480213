#![tactic(auto)]

// Embedding a filled file in its host.
ghost use Rattle.std.specs.Prelude.{◌≡◌, ◌++◌, ◌+◌, ◌-◌, ◌≤◌, ◌<◌, length, take};
ghost use Rattle.std.proofs.lemmas.List.Edits.{sets};
ghost use Rattle.text.specs.Bytes.{part};
ghost use Rattle.embedding.specs.Unmarked.{Unmarked, line_after};

use scan::region;
use scan::region::Cursor;
use text::lines;
use text::part::Part;

// Where the line after the one at a place starts.
fn line_after(s: &[u8], at: usize) -> usize
    requires { at < length s.now }
    ensures { (result ≡ line_after at s.now) × ((at < result) × (result ≤ length s.now)) }
{
    lines::line(s, at, at).next
}

// Copies two parts of a buffer down to an earlier place, one behind the other, and answers the place after them.
fn copy_both(out: &mut [u8], a: Part, b: Part, at: usize) -> usize
    requires { ((at ≤ a.start) × (a.start ≤ a.end)) × ((a.end ≤ b.start) × ((b.start ≤ b.end) × (b.end ≤ length out.old))) }
    ensures out_after { out.new ≡ sets out.old at (part a.start a.end out.old ++ part b.start b.end out.old) }
    ensures value { result ≡ at + (a.end - a.start) + (b.end - b.start) }
{
    let e = buffer::copy_down(out, a.start, a.end, at);
    buffer::copy_down(out, b.start, b.end, e)
}

// Takes the region marker lines that a scan of the first n bytes finds out of them, and answers how many bytes are left.
pub fn drop_markers(work: &mut [u8], n: usize) -> usize
    requires { n ≤ length work.old }
    ensures { (result ≤ n) × Unmarked (take n work.old) (take result work.new) }
{
    let mut at = 0;
    let mut c = Cursor { at: 0, line: 0 };
    // Bytes from the cursor on are as they were; those before `at` are the lines so far.
    while let Some((region, _)) = region::next_region(&work[..n], c) {
        let opener = region.opener;
        let closer = region.closer;
        let start = line_after(&work[..n], opener.at);
        let next = line_after(&work[..n], closer.at);
        let before = Part {
            start: c.at,
            end: opener.at,
        };
        let within = Part {
            start,
            end: closer.at,
        };
        at = copy_both(work, before, within, at);
        c = Cursor {
            at: next,
            line: closer.line,
        };
    }
    buffer::copy_down(work, c.at, n, at)
}
