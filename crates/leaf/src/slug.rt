// The whole anchor of a heading's text, in a buffer.
ghost use Rattle.std.specs.Prelude.{◌≡◌, length, set};
ghost use Rattle.std.proofs.lemmas.List.Edits.{sets};
ghost use Rattle.anchor.specs.Anchor.{slug};

// Writes a byte at a place, if there is one.
fn put_byte(out: &mut [u8], at: usize, b: u8)
    ensures { out.new ≡ set out.old at b }
{
    if at < out.len() {
        out[at] = b;
    }
}

// Writes the anchor to the front of a buffer, as far as there is room, and answers the anchor's length.
pub fn put(text: &[u8], out: &mut [u8]) -> usize
    ensures { (result ≡ length (slug text.now)) × (out.new ≡ sets out.old 0 (slug text.now)) }
{
    let mut n = 0;
    let mut cursor = anchor::start(text);
    while let Some((byte, next)) = anchor::next(text, cursor) {
        put_byte(out, n, byte);
        n += 1;
        cursor = next;
    }
    n
}
