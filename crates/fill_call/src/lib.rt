#![tactic(auto)]

// The call fill: the host handed in with its regions filled, in the output.
ghost use Rattle.std.specs.Prelude.{◌≡◌, length};
ghost use Rattle.book.specs.Calls.{fill_outcome, answer_of, output_after, work_after};
ghost use Rattle.filling.specs.Filling.{read_filled};
ghost use Rattle.give.specs.Given.{Fits};

use answer::{Answer, Refusal};
use fileset::check;
use fileset::check::Sizes;
use index::rows::Rows;
use opening::{Chain, Filling};

// Checks the input, and fills the host at the front of the work buffer.
fn run<'a>(
    index: &'a [u8],
    contents: &'a [u8],
    name: &'a [u8],
    text: &[u8],
    sizes: Sizes,
    allowance: usize,
    work: &mut [u8],
) -> Result<Answer, Refusal>
    requires { sizes.work ≡ length work.old }
    ensures work_after { read_filled result work.new ≡ fill_outcome index.now contents.now name.now text.now sizes.limit allowance sizes.output sizes.work }
    ensures fits { Fits result sizes.output sizes.work }
{
    let mut rows = Rows::new();
    let files = check::check_fill(index, contents, name, text, sizes, &mut rows)?;
    let at = Filling {
        number: 0,
        limit: sizes.limit,
        allowance,
        used: 0,
    };
    let chain = Chain {
        files,
        top: name,
        marks: [false; 64],
    };
    fragment::fill_regions(chain, name, text, at, work)
}

// A fill of a host, by its name and text. The limit, the allowance and both buffers are the caller's.
pub fn fill(
    index: &[u8],
    contents: &[u8],
    name: &[u8],
    text: &[u8],
    limit: usize,
    allowance: usize,
    out: &mut [u8],
    work: &mut [u8],
) -> Result<Answer, Refusal>
    ensures value { result ≡ answer_of (fill_outcome index.now contents.now name.now text.now limit allowance (length out.old) (length work.old)) }
    ensures out_after { out.new ≡ output_after (fill_outcome index.now contents.now name.now text.now limit allowance (length out.old) (length work.old)) out.old }
    ensures work_after { work.new ≡ work_after work.old }
{
    let sizes = Sizes {
        limit,
        output: out.len(),
        work: work.len(),
    };
    let got = run(index, contents, name, text, sizes, allowance, work);
    give::give(got, out, work);
    got
}
