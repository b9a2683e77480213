// The lines of a text that is taken in, and what they become.
ghost use Rattle.putting.specs.Lines.{FoundLine};

use heading::walk::WalkState;
use put::line;
use put::line::NewText;
use text::bytes;

// Where a line ends, what it becomes and the walk's state after it.
#[derive(Clone, Copy)]
pub struct LineStep {
    pub end: usize,
    pub text: NewText,
    pub state: WalkState,
}

// The line of a text that starts at a place; None behind the last one.
pub fn line_at(s: &[u8], from: usize, state: WalkState, shift: i32) -> Option<LineStep>
    ensures { FoundLine s.now from state shift result }
{
    if s.len() < from {
        return None;
    }
    let end = bytes::find_byte(s, from, b'\n');
    let step = heading::walk::step(state, &s[from..end]);
    let kind = step.kind;
    let after = step.state;
    Some(LineStep {
        end,
        text: line::new_text(kind, shift, from, end),
        state: after,
    })
}
