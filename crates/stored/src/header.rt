// A header of a stored case: two numbers of six digits, with a space between and LF behind.
ghost use Rattle.std.specs.Prelude.{◌≡◌, length};
ghost use Rattle.stored.specs.Header.{header_of};

use buffer::decimal;

// The two numbers of a header; None where it is ill formed.
#[tactic(auto, unfolding(crate::specs::Header::header_of))]
pub fn parse(s: &[u8]) -> Option<(usize, usize)>
    requires { length s.now ≡ 14 }
    ensures { result ≡ header_of s.now }
{
    if s[6] != b' ' || s[13] != b'\n' {
        return None;
    }
    let first = decimal::parse(&s[..6])?;
    let second = decimal::parse(&s[7..13])?;
    Some((first, second))
}
