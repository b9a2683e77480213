// The six numbers of an answer.
use std::fmt;
use std::fmt::Display;

// A row of them, tabs between.
#[derive(Clone, Copy)]
pub struct Row(pub [u64; 6]);

impl Display for Row {
    ghost use Rattle.std.specs.Prelude.{Some};
    ghost use Rattle.stored.specs.Row.{row_text};

    ghost output = { λ r. Some (row_text r.0) };

    #[tactic(auto, unfolding(crate::specs::Row::row_text))]
    fn fmt<W: fmt::Write>(&self, f: &mut fmt::Formatter<W>) -> fmt::Result {
        let [a, b, c, d, e, g] = self.0;
        write!(f, "{a}\t{b}\t{c}\t{d}\t{e}\t{g}")
    }
}
