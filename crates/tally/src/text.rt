ghost use Rattle.std.specs.Prelude.{Some};
ghost use Rattle.tally.specs.Text.{answer_text, number_text};

use crate::numbers::UpTo;
use crate::verdicts::Answer;
use std::fmt;

impl fmt::Display for Answer {
    ghost output = { λ x. Some (answer_text x) };

    fn fmt<W: fmt::Write>(&self, f: &mut fmt::Formatter<W>) -> fmt::Result {
        match self {
            Answer::No => write!(f, "no"),
            Answer::Yes => write!(f, "yes"),
        }
    }
}

impl<const TOP: u32> fmt::Display for UpTo<TOP> {
    ghost output = { λ x. Some (number_text x) };

    fn fmt<W: fmt::Write>(&self, f: &mut fmt::Formatter<W>) -> fmt::Result {
        let value = self.value();
        write!(f, "{value}")
    }
}
