// The bytes that a line loses: those of a link's target that name the host, before the fragment.
ghost use Rattle.std.specs.Prelude.{◌≤◌, length};
ghost use Rattle.self_links.specs.Cuts.{FoundCut};

use link::links;
use link::target::{self, Embedding};

#[derive(Clone, Copy)]
pub struct Cut {
    pub start: usize,
    pub end: usize,
    pub next: usize,
}

// The first bytes that go, from a place of a line on; None where none go.
pub fn next_cut(line: &[u8], from: usize, embedding: Embedding) -> Option<Cut>
    requires { from ≤ length line.now }
    ensures { FoundCut embedding.entry.host.now embedding.entry.dir.now line.now from result }
{
    let mut i = from;
    while let Some(link) = links::next_link(line, i) {
        let n = target::anchor_self(&line[link.start..link.end], embedding);
        if 0 < n {
            return Some(Cut {
                start: link.start,
                end: link.start + n,
                next: link.end,
            });
        }
        i = link.end;
    }
    None
}
