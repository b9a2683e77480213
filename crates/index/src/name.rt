// Names: those of the files, of a host, and URLs.
ghost use Rattle.std.specs.Prelude.{◌≡◌};
ghost use Rattle.text.specs.Bytes.{any};
ghost use Rattle.index.specs.Index.{is_unprinted, is_name};

// Whether s has a byte that no name may have.
#[tactic(auto, using(crate::proofs::IndexLaws::bytes_more))]
fn has_unprinted(s: &[u8]) -> bool
    ensures { result ≡ any is_unprinted s.now }
{
    let mut hit = false;
    for &byte in s {
        hit |= !(0x20..=0x7E).contains(&byte);
    }
    hit
}

// Whether s can be a name or a URL.
#[tactic(auto, unfolding(crate::specs::Index::is_name))]
pub fn is_name(s: &[u8]) -> bool
    ensures { result ≡ is_name s.now }
{
    (1..=255).contains(&s.len()) && !has_unprinted(s)
}
