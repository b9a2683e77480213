// Numbers in decimal.
ghost use Rattle.std.specs.Prelude.{◌≡◌, ◌+◌, ◌≤◌, ◌<◌, length, drop, ◌++◌};
ghost use Rattle.buffer.specs.Decimal.{decimal, number_of};

fn digit(n: usize) -> u8
    requires { n < 10 }
    ensures { result ≡ 0x30 + n }
{
    b'0' + n as u8
}

// Writes n so that it ends before place e of a buffer, and answers where it starts.
#[tactic(auto, using(crate::proofs::DecimalLaws::some_digits))]
pub fn put_before(out: &mut [u8], e: usize, n: usize) -> usize
    requires { (length (decimal n) ≤ e) × (e ≤ length out.old) }
    ensures { (drop result out.new ≡ decimal n ++ drop e out.old) × (result + length (decimal n) ≡ e) }
{
    // By hand: how many digits there are shows only as they are written.
    let mut i = e;
    let mut m = n;
    while 10 <= m {
        i -= 1;
        out[i] = digit(m % 10);
        m /= 10;
    }
    i -= 1;
    out[i] = digit(m);
    i
}

// The number that decimal digits make, if s has no other byte.
pub fn parse(s: &[u8]) -> Option<usize>
    requires { length s.now ≤ 10 }
    ensures { result ≡ number_of s.now }
{
    let mut n = 0;
    for b in s {
        if !b.is_ascii_digit() {
            return None;
        }
        n = n * 10 + usize::from(*b - b'0');
    }
    Some(n)
}
