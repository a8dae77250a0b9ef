ghost use Rattle.theory.specs.Tallies as tallies;
ghost use Rattle.theory.proofs.Tallies.{grades_laws};
ghost use Rattle.tally.specs.Means.{number_or_none};
ghost use Rattle.std.specs.Prelude.{Option as Maybe};

use crate::interface::Tally;
use crate::numbers::UpTo;
use crate::numbers::joins::lower;

// A grade of licence, up to 9.
pub type Licence = UpTo<9>;

// The tally of the lowest grade of licence that allows a valid tree.
#[derive(Clone, Copy)]
pub struct Grade;

// Like Price's but for top, join, laws and weight: one impl over a trait of both would leave TOP
// unconstrained, and a generic struct for both would lose the two names as values.
impl Tally for Grade {
    type Value = Option<Licence>;

    ghost Meaning = { Maybe (tallies.UpTo tallies.top_grade) };

    ghost algebra = { tallies.grades };

    ghost laws = { grades_laws };

    ghost means = { number_or_none };

    ghost weighs = { λ _. tallies.grade_weight };

    fn zero(&self) -> Option<Licence> {
        None
    }

    fn one(&self) -> Option<Licence> {
        Some(UpTo::new(0))
    }

    fn plus(&self, a: Option<Licence>, b: Option<Licence>) -> Option<Licence> {
        lower(a, b)
    }

    fn times(&self, a: Option<Licence>, b: Option<Licence>) -> Option<Licence> {
        Some(a?.max(b?))
    }

    fn weight(&self, _task: usize, _price: u32, grade: u32) -> Option<Licence> {
        Some(UpTo::new(u64::from(grade)))
    }
}
