#![tactic(auto)]

// Leaf functions of the library for C, for tests of the host alone: each answers six numbers.
ghost use Rattle.std.specs.Prelude.{◌≡◌, length, None};
ghost use Rattle.std.proofs.lemmas.List.Edits.{sets};
ghost use Rattle.anchor.specs.Anchor.{slug};
ghost use Rattle.heading.specs.Contents.{drops as drops_line};
ghost use Rattle.heading.specs.Level.{shallowest_of};
ghost use Rattle.heading.specs.Walk.{walk_begin, kinds_from};
ghost use Rattle.leaf.specs.Leaf.{one, is_on, step_of, top_number, moved_of};
ghost use Rattle.text.specs.Bytes.{bit};
ghost use Rattle.text.specs.Lines.{pieces};
ghost use Rattle.text.specs.Pattern.{equals as equals_to};

use heading::{contents, level, walk};
use leaf::{number, slug};
use text::bytes;

mod checks;
mod lines;
mod links;
mod regions;

// One step of the walk: the line's kind (0 other, 1 heading, 2 quoted), its level, where its text starts and ends, the fence after it (0 outside,
// 1 ticks, 2 tildes) and whether a comment is open after it.
#[unsafe(no_mangle)]
pub extern "C" fn leaf_step(fence: u64, comment: u64, line: &[u8], answer: &mut [u64; 6])
    ensures { answer.new ≡ step_of fence comment line.now }
{
    let state = number::state(fence, comment);
    let w = walk::step(state, line);
    let kind = w.kind;
    let after = w.state;
    *answer = number::of_step(kind, after);
}

// Whether a line of a member is dropped, where the line before it was dropped or not.
#[unsafe(no_mangle)]
pub extern "C" fn leaf_drops(within: u64, line: &[u8], answer: &mut [u64; 6])
    ensures { answer.new ≡ one (bit (drops_line (is_on within) line.now)) }
{
    let b = contents::drops(within != 0, line);
    *answer = number::one(bytes::bit(b) as u64);
}

// The shallowest level of a text's headings, or 0.
#[unsafe(no_mangle)]
pub extern "C" fn leaf_shallowest(text: &[u8], answer: &mut [u64; 6])
    ensures { answer.new ≡ one (top_number (shallowest_of None (kinds_from walk_begin (pieces text.now)))) }
{
    let found = level::shallowest(text);
    *answer = number::one(number::of_top(found));
}

// The level that a heading moves to: 1 and the level, 0 if that is none of 1 to 6, 2 if an argument is none.
#[unsafe(no_mangle)]
pub extern "C" fn leaf_moved(target: u64, shallowest: u64, level: u64, answer: &mut [u64; 6])
    ensures { answer.new ≡ moved_of target shallowest level }
{
    *answer = number::of_move(target, shallowest, level);
}

// The anchor of a heading's text: its bytes at the front of the output, as far as there is room, and its whole length.
#[unsafe(no_mangle)]
pub extern "C" fn leaf_anchor(text: &[u8], out: &mut [u8], answer: &mut [u64; 6])
    ensures answer_after { answer.new ≡ one (length (slug text.now)) }
    ensures out_after { out.new ≡ sets out.old 0 (slug text.now) }
{
    let n = slug::put(text, out);
    *answer = number::one(n as u64);
}

// Whether two heading texts have the same anchor.
#[unsafe(no_mangle)]
pub extern "C" fn leaf_same(s: &[u8], t: &[u8], answer: &mut [u64; 6])
    ensures { answer.new ≡ one (bit (equals_to (slug s.now) (slug t.now))) }
{
    let b = anchor::same_anchor(s, t);
    *answer = number::one(bytes::bit(b) as u64);
}
