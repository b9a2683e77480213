#![tactic(auto)]

// The call book: the members of a list filled, and joined into one text, in the output.
ghost use Rattle.std.specs.Prelude.{◌≡◌, length};
ghost use Rattle.book.specs.Calls.{book_outcome, answer_of, output_after, work_after};
ghost use Rattle.filling.specs.Filling.{read_filled};
ghost use Rattle.give.specs.Given.{Fits};

use answer::{Answer, Refusal};
use fileset::check;
use fileset::check::Sizes;
use fileset::members::Records;
use index::rows::Rows;

// Checks the input, and makes the book at the front of the work buffer.
fn run<'a>(
    index: &'a [u8],
    contents: &'a [u8],
    list: &[u8],
    url: &[u8],
    sizes: Sizes,
    allowance: usize,
    work: &mut [u8],
) -> Result<Answer, Refusal>
    requires { sizes.work ≡ length work.old }
    ensures work_after { read_filled result work.new ≡ book_outcome index.now contents.now list.now url.now sizes.limit allowance sizes.output sizes.work }
    ensures fits { Fits result sizes.output sizes.work }
{
    let mut rows = Rows::new();
    let mut lines = Records::new();
    let files = check::check_book(index, contents, list, url, sizes, &mut rows, &mut lines)?;
    book_walk::assemble_listed(files, lines.as_slice(), url, sizes.limit, allowance, work)
}

// A book of the members of a list, with the URL of their repository. The limit, the allowance and both buffers are the caller's.
pub fn book(
    index: &[u8],
    contents: &[u8],
    list: &[u8],
    url: &[u8],
    limit: usize,
    allowance: usize,
    out: &mut [u8],
    work: &mut [u8],
) -> Result<Answer, Refusal>
    ensures value { result ≡ answer_of (book_outcome index.now contents.now list.now url.now limit allowance (length out.old) (length work.old)) }
    ensures out_after { out.new ≡ output_after (book_outcome index.now contents.now list.now url.now limit allowance (length out.old) (length work.old)) out.old }
    ensures work_after { work.new ≡ work_after work.old }
{
    let sizes = Sizes {
        limit,
        output: out.len(),
        work: work.len(),
    };
    let got = run(index, contents, list, url, sizes, allowance, work);
    give::give(got, out, work);
    got
}
