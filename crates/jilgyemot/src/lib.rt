#![tactic(auto)]

// The calls of Jilgyemot, as C has them: the answer as six numbers. jilgyemot_c exports them.
ghost use Rattle.book.specs.Promises.{ScanCall, FillCall, AssembleCall, BookCall};

// The marker scan of a text: its listing in the output, its answer as six numbers.
pub fn jilgyemot_scan(text: &[u8], out: &mut [u8], answer: &mut [u64; 6])
    ensures { ScanCall text.now out.old answer.new out.new }
{
    let scanned = listing::scan(text, out);
    *answer = answer::numbers(scanned);
}

// A fill of a host: its text in the output, its answer as six numbers.
pub fn jilgyemot_fill(
    index: &[u8],
    contents: &[u8],
    name: &[u8],
    text: &[u8],
    limit: u64,
    allowance: u32,
    out: &mut [u8],
    work: &mut [u8],
    answer: &mut [u64; 6],
)
    ensures { FillCall index.now contents.now name.now text.now limit allowance out.old work.old answer.new out.new work.new }
{
    let filled = fill_call::fill(
        index,
        contents,
        name,
        text,
        limit as usize,
        allowance as usize,
        out,
        work,
    );
    *answer = answer::numbers(filled);
}

// An assembly of the members of a list: its text in the output, its answer as six numbers.
pub fn jilgyemot_assemble(
    index: &[u8],
    contents: &[u8],
    list: &[u8],
    url: &[u8],
    limit: u64,
    out: &mut [u8],
    work: &mut [u8],
    answer: &mut [u64; 6],
)
    ensures { AssembleCall index.now contents.now list.now url.now limit out.old work.old answer.new out.new work.new }
{
    let assembled = assemble_call::assemble(index, contents, list, url, limit as usize, out, work);
    *answer = answer::numbers(assembled);
}

// A book of the members of a list, each filled, and all joined: its text in the output, its answer as six numbers.
pub fn jilgyemot_book(
    index: &[u8],
    contents: &[u8],
    list: &[u8],
    url: &[u8],
    limit: u64,
    allowance: u32,
    out: &mut [u8],
    work: &mut [u8],
    answer: &mut [u64; 6],
)
    ensures { BookCall index.now contents.now list.now url.now limit allowance out.old work.old answer.new out.new work.new }
{
    let most = allowance as usize;
    let made = book_call::book(index, contents, list, url, limit as usize, most, out, work);
    *answer = answer::numbers(made);
}
