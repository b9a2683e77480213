// An argument of the program, read into a buffer.
ghost use Rattle.std.specs.Prelude.{◌≤◌, length};

use crate::shown;
use std::env::Env;

// The bytes of an argument, at the front of a buffer; none where there is no such argument or the buffer is too short for it.
pub fn read<'b>(env: &impl Env, i: usize, buf: &'b mut [u8]) -> &'b [u8]
    ensures { length result.now ≤ length buf.old }
{
    let n = env.arg(i, buf).unwrap_or(0);
    &buf[..n]
}

// The same as they are shown.
pub fn read_shown<'b>(env: &impl Env, i: usize, buf: &'b mut [u8; 4096]) -> &'b [u8] {
    let n = read(env, i, buf).len();
    shown::show(buf);
    &buf[..n]
}
