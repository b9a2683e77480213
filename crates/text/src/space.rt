// Space bytes and trimming.
ghost use Rattle.std.specs.Prelude.{◌≡◌, ◌≤◌, length};
ghost use Rattle.text.specs.Bytes.{any};
ghost use Rattle.text.specs.Space.{is_space, is_other, lead as lead_of, kept as kept_of, is_blank};

// Whether b is a space byte.
#[tactic(auto, using(std::proofs::lemmas::Bool::Decides::nat_tests), unfolding(crate::specs::Space::is_space))]
pub fn is_space(b: u8) -> bool
    ensures { result ≡ is_space b }
{
    matches!(b, 0x09..=0x0D | b' ')
}

// How many space bytes s begins with.
pub fn lead(s: &[u8]) -> usize
    ensures { (result ≡ lead_of s.now) × (result ≤ length s.now) }
{
    s.iter().take_while(|b| is_space(**b)).count()
}

// Whether a byte other than a space byte stands in a block, without an early exit, so that it becomes vector code; with `is_space` it
// would not.
fn block_has_other(block: &[u8]) -> bool
    ensures { result ≡ any is_other block.now }
{
    block.iter().fold(
        false,
        |hit, x| hit | !(((0x09 <= *x) & (*x <= 0x0D)) | (*x == b' ')),
    )
}

// How many bytes s has up to its last byte that is no space byte, byte by byte.
fn kept_near(s: &[u8]) -> usize
    ensures { (result ≡ kept_of s.now) × (result ≤ length s.now) }
{
    s.len() - s.iter().rev().take_while(|b| is_space(**b)).count()
}

// How many bytes s has up to its last byte that is no space byte. By blocks, since a file may be blank as a whole.
pub fn kept(s: &[u8]) -> usize
    ensures { (result ≡ kept_of s.now) × (result ≤ length s.now) }
{
    for k in 0..s.len() / 16 {
        let e = s.len() - 16 * k;
        if block_has_other(&s[e - 16..e]) {
            return kept_near(&s[..e]);
        }
    }
    kept_near(&s[..s.len() % 16])
}

// Whether s has only space bytes.
pub fn is_blank(s: &[u8]) -> bool
    ensures { result ≡ is_blank s.now }
{
    lead(s) == s.len()
}
