ghost use Rattle.std.specs.Prelude.{Bool};
ghost use Rattle.theory.specs.Tallies as tallies;
ghost use Rattle.theory.proofs.Tallies.{verdicts_laws};
ghost use Rattle.tally.specs.Means.{is_yes};

use crate::interface::Tally;
use crate::verdicts::Answer;

// The tally of verdicts: yes if there is a valid tree.
#[derive(Clone, Copy)]
pub struct Verdict;

impl Tally for Verdict {
    type Value = Answer;

    ghost Meaning = { Bool };

    ghost algebra = { tallies.verdicts };

    ghost laws = { verdicts_laws };

    ghost means = { is_yes };

    ghost weighs = { λ _. tallies.verdict_weight };

    fn zero(&self) -> Answer {
        Answer::No
    }

    fn one(&self) -> Answer {
        Answer::Yes
    }

    fn plus(&self, a: Answer, b: Answer) -> Answer {
        a.or(b)
    }

    fn times(&self, a: Answer, b: Answer) -> Answer {
        a.and(b)
    }

    fn weight(&self, _task: usize, _price: u32, _grade: u32) -> Answer {
        self.one()
    }
}
