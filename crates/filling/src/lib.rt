#![tactic(auto)]

// What a fill has put so far, and the host's last bytes behind it.
ghost use Rattle.std.specs.Prelude.{◌≡◌, ◌++◌, ◌≤◌, length, take};
ghost use Rattle.answer.specs.Answer.{place};
ghost use Rattle.text.specs.Bytes.{part};
ghost use Rattle.insertion.specs.Insertion.{tested};
ghost use Rattle.filling.specs.Filling.{read_filled, FilledWithin, with_files};

use answer::{Answer, Place, Refusal};
use opening::Filling;

// A text that a fill has put: how long it is, and how many files were taken in.
#[derive(Clone, Copy)]
pub struct Filled {
    pub length: usize,
    pub files: usize,
}

// The host's bytes behind the last region; 17 at line 0.
pub fn put_last(
    s: &[u8],
    from: usize,
    at: Filling,
    text: Filled,
    work: &mut [u8],
) -> Result<Answer, Refusal>
    requires { (from ≤ length s.now) × ((text.length ≤ at.limit) × (at.limit ≤ length work.old)) }
    ensures work_after { read_filled result work.new
        ≡ with_files text.files (tested at.limit (place at.number 0) (take text.length work.old ++ part from (length s.now) s.now)) }
    ensures filled_within { FilledWithin result at.limit }
{
    let end = Place {
        file: at.number,
        line: 0,
    };
    let length = opening::put_block(&s[from..], end, at.limit, text.length, work)?;
    Ok(Answer::Accepted {
        length,
        files: text.files,
    })
}
