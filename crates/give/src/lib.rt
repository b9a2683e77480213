#![tactic(auto)]

// What a call gives once its text stands at the front of the work buffer.
ghost use Rattle.std.specs.Prelude.{◌≡◌, length};
ghost use Rattle.book.specs.Calls.{work_after};
ghost use Rattle.give.specs.Given.{copied, Fits};

use answer::{Answer, Refusal};

// Copies the text of an answer from the front of the work buffer to the front of the output.
fn copy_out(a: Result<Answer, Refusal>, work: &[u8], out: &mut [u8])
    requires { Fits a (length out.old) (length work.now) }
    ensures { out.new ≡ copied a work.now out.old }
{
    if let Ok(Answer::Accepted { length, .. }) = a {
        buffer::copy(&work[..length], out, 0);
    }
}

// The same, and the work buffer is cleared. Takes what the run answered and not the run as a closure: a contract would then speak of each answer and buffer that it may leave.
pub fn give(a: Result<Answer, Refusal>, out: &mut [u8], work: &mut [u8])
    requires { Fits a (length out.old) (length work.old) }
    ensures out_after { out.new ≡ copied a work.old out.old }
    ensures work_after { work.new ≡ work_after work.old }
{
    copy_out(a, work, out);
    buffer::clear(work);
}
