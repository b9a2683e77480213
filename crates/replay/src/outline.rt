// The outline of a text: a row for each heading, with its anchor, and for each quoted line.
use arrayvec::ArrayVec;
use heading::walk;
use heading::walk::LineKind;
use std::io;
use std::io::Write;
use text::lines;

// The anchor of a heading's text, in blocks: a call of `write` for each byte is slow. So no Display, which would write bytes one by one.
fn print_anchor(to: &mut impl Write, text: &[u8]) -> io::Result<()> {
    let mut block = ArrayVec::<u8, 64>::new();
    let mut cursor = anchor::start(text);
    while let Some((byte, next)) = anchor::next(text, cursor) {
        if block.is_full() {
            to.write_all(&block)?;
            block.clear();
        }
        block.push(byte);
        cursor = next;
    }
    to.write_all(&block)
}

// The rows of a text, in the order of its lines, which stand between LFs and count from 1: `quoted` and the line's number, or `heading`, the
// line's number, the level, where the text starts and ends in the line, and its anchor.
pub fn print(to: &mut impl Write, text: &[u8]) -> io::Result<()> {
    let mut state = walk::begin();
    for (number, line) in (1..usize::MAX).zip(lines::pieces(text)) {
        let step = walk::step(state, line);
        match step.kind {
            LineKind::Quoted => writeln!(to, "quoted\t{number}")?,
            LineKind::Heading { level, start, end } => {
                write!(to, "heading\t{number}\t{level}\t{start}\t{end}\t")?;
                print_anchor(to, &line[start..end])?;
                to.write_all(b"\n")?;
            }
            LineKind::Other => (),
        }
        state = step.state;
    }
    Ok(())
}
