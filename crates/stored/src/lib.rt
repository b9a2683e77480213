#![tactic(auto)]

// Stored cases: their headers, their replay, and the answers that a program prints.
ghost use Rattle.std.specs.Prelude.{◌≡◌, true, IfOk};
ghost use Rattle.std.specs.Io.KnownBytes.{Consumes};

use std::io;
use std::io::{ErrorKind, Read, Write};

pub mod case;
pub mod header;
pub mod print;

// The loop over the cases has to end, and nothing says that the input does.
const MOST_CASES: usize = 100_000;

// Reads until a buffer is full, and answers whether the input had as many bytes.
pub fn is_filled<R: Read>(from: &mut R, buf: &mut [u8]) -> io::Result<bool>
    ensures { IfOk result (λ filled. filled ≡ true → Consumes (R.remaining from.old) (R.remaining from.new) buf.new) }
{
    match from.read_exact(buf) {
        Ok(()) => Ok(true),
        Err(e) if e.kind() == ErrorKind::UnexpectedEof => Ok(false),
        Err(e) => Err(e),
    }
}

// Replays the stored cases of an input. A step is handed the header of a case, as long as the buffer for it, reads the rest and prints the
// answer. It answers whether the case was well formed and all there; if not, that is printed and no more is read.
pub fn replay<R: Read, W: Write, F: Fn(&[u8], &mut R, &mut W) -> io::Result<bool>>(
    from: &mut R,
    to: &mut W,
    header: &mut [u8],
    step: F,
) -> io::Result<()>
    requires { F.IsAlwaysCallable step }
{
    for _ in 0..MOST_CASES {
        if !is_filled(from, header)? {
            break;
        }
        if !step(header, from, to)? {
            return to.write_all(b"ill formed\n");
        }
    }
    Ok(())
}
