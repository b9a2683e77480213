// Patterns in a text.
ghost use Rattle.std.specs.Prelude.{◌≡◌};
ghost use Rattle.text.specs.Pattern.{starts_with, ends_with, equals as equals_to, find as find_in, contains as contains_in};

use crate::bytes;

// Whether s begins with p. On short texts this form is faster than `s.starts_with(p)`; both sides of `zip` are of one length, so that
// one test for each byte is enough.
pub fn starts_with(s: &[u8], p: &[u8]) -> bool
    ensures { result ≡ starts_with p.now s.now }
{
    p.len() <= s.len() && s[..p.len()].iter().zip(p).all(|(x, y)| *x == *y)
}

// Whether s ends with p.
pub fn ends_with(s: &[u8], p: &[u8]) -> bool
    ensures { result ≡ ends_with p.now s.now }
{
    p.len() <= s.len() && starts_with(&s[s.len() - p.len()..], p)
}

// Whether s is p.
pub fn equals(s: &[u8], p: &[u8]) -> bool
    ensures { result ≡ equals_to p.now s.now }
{
    s == p
}

// The first place of s at which p stands.
pub fn find(s: &[u8], p: &[u8]) -> Option<usize>
    ensures { result ≡ find_in p.now s.now }
{
    if p.is_empty() {
        return Some(0);
    }
    let b = p[0];
    // By hand: a search by `windows` takes twice as long and more, and one by `memmem` on a line too.
    let mut i = bytes::find_byte(s, 0, b);
    while i < s.len() {
        if starts_with(&s[i..], p) {
            return Some(i);
        }
        i = bytes::find_byte(s, i + 1, b);
    }
    None
}

// Whether p stands anywhere in s.
pub fn contains(s: &[u8], p: &[u8]) -> bool
    ensures { result ≡ contains_in p.now s.now }
{
    find(s, p).is_some()
}
