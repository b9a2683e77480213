// Searches for a byte and counts of it. A test of a block has no early exit, so that it becomes vector code; a search goes block
// by block, then byte by byte from the block that has what is sought.
ghost use Rattle.std.specs.Prelude.{◌≡◌, ◌+◌, ◌≤◌, ◌<◌, length, drop};
ghost use Rattle.text.specs.Bytes.{is, bit as bit_of, any, first, count as count_of, after_last};

// A bool as a number, for a table of numbers.
pub fn bit(b: bool) -> usize
    ensures { result ≡ bit_of b }
{
    usize::from(b)
}

// Whether b stands in s.
#[tactic(auto, using(crate::proofs::WordLaws::std_words))]
pub fn has(s: &[u8], b: u8) -> bool
    ensures { result ≡ any (is b) s.now }
{
    s.contains(&b)
}

// The same of a block of constant length, for which this form is faster.
fn block_has(block: &[u8], b: u8) -> bool
    ensures { result ≡ any (is b) block.now }
{
    block.iter().fold(false, |hit, x| hit | (*x == b))
}

// The first place of b, or the length, byte by byte.
fn find_near(s: &[u8], b: u8) -> usize
    ensures { (result ≡ first (is b) s.now) × (result ≤ length s.now) }
{
    s.iter().position(|x| *x == b).unwrap_or(s.len())
}

// The first place of b from a place on, where there is one, byte by byte. By hand: `position` tests at each byte whether s ends, which
// takes 1.2 to 1.7 times the instructions where b stands every 3 to 64 bytes.
fn find_here(s: &[u8], from: usize, b: u8) -> usize
    requires { from + first (is b) (drop from s.now) < length s.now }
    ensures { (result ≡ from + first (is b) (drop from s.now)) × (result ≤ length s.now) }
{
    let mut i = from;
    while s[i] != b {
        i += 1;
    }
    i
}

// The first place of b from a place on, or the length.
pub fn find_byte(s: &[u8], from: usize, b: u8) -> usize
    requires { from ≤ length s.now }
    ensures { (result ≡ from + first (is b) (drop from s.now)) × (result ≤ length s.now) }
{
    let blocks = (s.len() - from) / 16;
    for k in 0..blocks {
        let i = from + 16 * k;
        if block_has(&s[i..i + 16], b) {
            return find_here(s, i, b);
        }
    }
    let rest = from + 16 * blocks;
    rest + find_near(&s[rest..], b)
}

// How many bytes of a short s are b.
#[tactic(auto, using(crate::proofs::WordLaws::std_words))]
fn count_few(s: &[u8], b: u8) -> u8
    requires { length s.now ≤ 255 }
    ensures { result ≡ count_of (is b) s.now }
{
    s.iter().map(|x| u8::from(*x == b)).sum()
}

// How many bytes of s are b. Blocks are of constant length, which `chunks` does not tell the compiler.
pub fn count_byte(s: &[u8], b: u8) -> usize
    ensures { (result ≡ count_of (is b) s.now) × (result ≤ length s.now) }
{
    let blocks = s.len() / 192;
    let mut n: usize = 0;
    for k in 0..blocks {
        n += usize::from(count_few(&s[192 * k..192 * k + 192], b));
    }
    n + usize::from(count_few(&s[192 * blocks..], b))
}

// The place after the last b of s, or the start of s, byte by byte.
fn after_near(s: &[u8], b: u8) -> usize
    ensures { (result ≡ after_last (is b) s.now) × (result ≤ length s.now) }
{
    s.len() - s.iter().rev().take_while(|x| **x != b).count()
}

// The place after the last b of s, or the start of s: a place in both cases, where a line or a part of a path begins.
pub fn after_last(s: &[u8], b: u8) -> usize
    ensures { (result ≡ after_last (is b) s.now) × (result ≤ length s.now) }
{
    for k in 0..s.len() / 16 {
        let e = s.len() - 16 * k;
        if block_has(&s[e - 16..e], b) {
            return after_near(&s[..e], b);
        }
    }
    after_near(&s[..s.len() % 16], b)
}
