#![tactic(auto)]

// Copying into a buffer, clearing it, and numbers in decimal. Each loop becomes a block move or a block fill.
ghost use Rattle.std.specs.Prelude.{◌≡◌, ◌+◌, ◌-◌, ◌≤◌, length, replicate};
ghost use Rattle.std.proofs.lemmas.List.Edits.{sets};
ghost use Rattle.text.specs.Bytes.{part};

pub mod decimal;

// Copies s to a place of a buffer, and answers the place after it. By place: `copy_from_slice` calls the C library's `memmove`, and
// the library for C does without.
pub fn copy(s: &[u8], out: &mut [u8], at: usize) -> usize
    requires { at + length s.now ≤ length out.old }
    ensures { (out.new ≡ sets out.old at s.now) × (result ≡ at + length s.now) }
{
    for j in 0..s.len() {
        out[at + j] = s[j];
    }
    at + s.len()
}

// Copies the bytes of a buffer from one place up to another down to an earlier place, and answers the place after them.
pub fn copy_down(out: &mut [u8], from: usize, to: usize, at: usize) -> usize
    requires { (at ≤ from) × ((from ≤ to) × (to ≤ length out.old)) }
    ensures { (out.new ≡ sets out.old at (part from to out.old)) × (result ≡ at + (to - from)) }
{
    let n = to - from;
    for j in 0..n {
        out[at + j] = out[from + j];
    }
    at + n
}

// Clears a buffer.
pub fn clear(out: &mut [u8])
    ensures { out.new ≡ replicate (length out.old) 0 }
{
    out.fill(0);
}
