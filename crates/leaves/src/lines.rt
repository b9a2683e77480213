// Leaf calls on the bytes of a line and of a buffer.
ghost use Rattle.std.specs.Prelude.{◌≡◌, length, replicate};
ghost use Rattle.leaf.specs.Leaf.{one, put_numbers, put_line};
ghost use Rattle.text.specs.Bytes.{bit};
ghost use Rattle.text.specs.Space.{is_blank};

use heading::level;
use leaf::number;
use text::{bytes, space};

// Whether a text has only space bytes.
#[unsafe(no_mangle)]
pub extern "C" fn leaf_blank(text: &[u8], answer: &mut [u64; 6])
    ensures { answer.new ≡ one (bit (is_blank text.now)) }
{
    let b = space::is_blank(text);
    *answer = number::one(bytes::bit(b) as u64);
}

// Writes a heading line at a place of the output: 1 and the place after it, or 0 if the level is above 6 or the line has no room there.
#[unsafe(no_mangle)]
pub extern "C" fn leaf_put_heading(
    at: u64,
    level: u64,
    text: &[u8],
    out: &mut [u8],
    answer: &mut [u64; 6],
)
    ensures answer_after { answer.new ≡ put_numbers at level (length text.now) (length out.old) }
    ensures out_after { out.new ≡ put_line at level text.now out.old }
{
    if !leaf::lines::has_room(at, level, text.len() as u64, out.len() as u64) {
        *answer = number::one(0);
        return;
    }
    let end = level::put_heading(out, at as usize, level as usize, text);
    *answer = [1, end as u64, 0, 0, 0, 0];
}

// Clears the output, and answers six zeros.
#[unsafe(no_mangle)]
pub extern "C" fn leaf_clear(out: &mut [u8], answer: &mut [u64; 6])
    ensures answer_after { answer.new ≡ one 0 }
    ensures out_after { out.new ≡ replicate (length out.old) 0 }
{
    buffer::clear(out);
    *answer = number::one(0);
}
