#![tactic(auto)]

// The C interface of Jilgyemot, and nothing else: the calls of jilgyemot under their names.
ghost use Rattle.book.specs.Promises.{ScanCall, FillCall, AssembleCall, BookCall};

// The marker scan of a text: its listing in the output, its answer as six numbers.
#[unsafe(no_mangle)]
pub extern "C" fn jilgyemot_scan(text: &[u8], out: &mut [u8], answer: &mut [u64; 6])
    ensures { ScanCall text.now out.old answer.new out.new }
{
    jilgyemot::jilgyemot_scan(text, out, answer);
}

// A fill of a host: its text in the output, its answer as six numbers.
#[unsafe(no_mangle)]
pub extern "C" fn jilgyemot_fill(
    index: &[u8],
    contents: &[u8],
    name: &[u8],
    text: &[u8],
    limit: u64,
    allowance: u32,
    out: &mut [u8],
    work: &mut [u8],
    answer: &mut [u64; 6],
)
    ensures { FillCall index.now contents.now name.now text.now limit allowance out.old work.old answer.new out.new work.new }
{
    jilgyemot::jilgyemot_fill(
        index, contents, name, text, limit, allowance, out, work, answer,
    );
}

// An assembly of the members of a list: its text in the output, its answer as six numbers.
#[unsafe(no_mangle)]
pub extern "C" fn jilgyemot_assemble(
    index: &[u8],
    contents: &[u8],
    list: &[u8],
    url: &[u8],
    limit: u64,
    out: &mut [u8],
    work: &mut [u8],
    answer: &mut [u64; 6],
)
    ensures { AssembleCall index.now contents.now list.now url.now limit out.old work.old answer.new out.new work.new }
{
    jilgyemot::jilgyemot_assemble(index, contents, list, url, limit, out, work, answer);
}

// A book of the members of a list, each filled, and all joined: its text in the output, its answer as six numbers.
#[unsafe(no_mangle)]
pub extern "C" fn jilgyemot_book(
    index: &[u8],
    contents: &[u8],
    list: &[u8],
    url: &[u8],
    limit: u64,
    allowance: u32,
    out: &mut [u8],
    work: &mut [u8],
    answer: &mut [u64; 6],
)
    ensures { BookCall index.now contents.now list.now url.now limit allowance out.old work.old answer.new out.new work.new }
{
    jilgyemot::jilgyemot_book(
        index, contents, list, url, limit, allowance, out, work, answer,
    );
}
