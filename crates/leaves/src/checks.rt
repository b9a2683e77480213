// Leaf calls on the refusals before the walk.
ghost use Rattle.std.specs.Prelude.{◌≡◌};
ghost use Rattle.fileset.specs.Check.{fill_checked, book_checked};
ghost use Rattle.leaf.specs.Link.{check_numbers};

use fileset::check;
use fileset::check::Sizes;
use fileset::members::Records;
use index::rows::Rows;

// The refusals of a fill, or six zeros.
#[unsafe(no_mangle)]
pub extern "C" fn leaf_check_fill(
    index: &[u8],
    contents: &[u8],
    name: &[u8],
    text: &[u8],
    limit: u64,
    out: u64,
    work: u64,
    answer: &mut [u64; 6],
)
    ensures { answer.new ≡ check_numbers (fill_checked index.now contents.now name.now text.now limit out work) }
{
    let sizes = Sizes {
        limit: limit as usize,
        output: out as usize,
        work: work as usize,
    };
    let mut rows = Rows::new();
    let checked = check::check_fill(index, contents, name, text, sizes, &mut rows);
    *answer = leaf::checks::of_checked(checked.map(|_| ()));
}

// The refusals of an assembly or a book, or six zeros.
#[unsafe(no_mangle)]
pub extern "C" fn leaf_check_book(
    index: &[u8],
    contents: &[u8],
    list: &[u8],
    url: &[u8],
    limit: u64,
    out: u64,
    work: u64,
    answer: &mut [u64; 6],
)
    ensures { answer.new ≡ check_numbers (book_checked index.now contents.now list.now url.now limit out work) }
{
    let sizes = Sizes {
        limit: limit as usize,
        output: out as usize,
        work: work as usize,
    };
    let mut rows = Rows::new();
    let mut members = Records::new();
    let checked = check::check_book(index, contents, list, url, sizes, &mut rows, &mut members);
    *answer = leaf::checks::of_checked(checked.map(|_| ()));
}
