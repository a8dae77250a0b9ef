ghost use Rattle.theory.specs.Tallies as tallies;
ghost use Rattle.theory.proofs.Tallies.{counts_laws};
ghost use Rattle.tally.specs.Means.{number};

use crate::interface::Tally;
use crate::numbers::UpTo;

// How many valid trees there are: a million stands for that many or more.
pub type Trees = UpTo<1_000_000>;

// The tally that counts the valid trees.
#[derive(Clone, Copy)]
pub struct Count;

impl Tally for Count {
    type Value = Trees;

    ghost Meaning = { tallies.UpTo tallies.top_count };

    ghost algebra = { tallies.counts };

    ghost laws = { counts_laws };

    ghost means = { number };

    ghost weighs = { λ _. tallies.count_weight };

    fn zero(&self) -> Trees {
        UpTo::new(0)
    }

    fn one(&self) -> Trees {
        UpTo::new(1)
    }

    fn plus(&self, a: Trees, b: Trees) -> Trees {
        a.plus(b)
    }

    fn times(&self, a: Trees, b: Trees) -> Trees {
        a.times(b)
    }

    fn weight(&self, _task: usize, _price: u32, _grade: u32) -> Trees {
        self.one()
    }
}
