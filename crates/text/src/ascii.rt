// Bytes 80 hex and above, and letters in lower case.
ghost use Rattle.std.specs.Prelude.{◌≡◌, ◌≤◌, length};
ghost use Rattle.text.specs.Bytes.{any, first};
ghost use Rattle.text.specs.Ascii.{is_wide, wide_line, lower as lower_of};

use crate::bytes;

// Whether s has such a byte.
fn has_wide(s: &[u8]) -> bool
    ensures { result ≡ any is_wide s.now }
{
    s.iter().fold(false, |hit, b| hit | (0x80 <= *b))
}

// The first place of such a byte, or the length, byte by byte.
fn find_wide_near(s: &[u8]) -> usize
    ensures { (result ≡ first is_wide s.now) × (result ≤ length s.now) }
{
    s.iter().position(|b| 0x80 <= *b).unwrap_or(s.len())
}

// The same, where there is none at once.
fn find_wide_in(s: &[u8]) -> usize
    ensures { (result ≡ first is_wide s.now) × (result ≤ length s.now) }
{
    if has_wide(s) {
        find_wide_near(s)
    } else {
        s.len()
    }
}

// The first place of such a byte, or the length. Blocks are of constant length, which `chunks` does not tell the compiler.
pub fn find_wide(s: &[u8]) -> usize
    ensures { (result ≡ first is_wide s.now) × (result ≤ length s.now) }
{
    let blocks = s.len() / 256;
    for k in 0..blocks {
        let i = 256 * k;
        if has_wide(&s[i..i + 256]) {
            return i + find_wide_near(&s[i..]);
        }
    }
    let rest = 256 * blocks;
    rest + find_wide_in(&s[rest..])
}

// The line of the first such byte; None where there is none.
pub fn wide_line(s: &[u8]) -> Option<usize>
    ensures { result ≡ wide_line 1 s.now }
{
    let p = find_wide(s);
    if p == s.len() {
        return None;
    }
    Some(1 + bytes::count_byte(&s[..p], b'\n'))
}

// A byte in lower case.
#[tactic(auto, using(std::proofs::lemmas::Bool::Decides::nat_tests), unfolding(crate::specs::Ascii::lower))]
pub fn lower(b: u8) -> u8
    ensures { result ≡ lower_of b }
{
    b.to_ascii_lowercase()
}
