ghost use Rattle.theory.specs.Tallies as tallies;
ghost use Rattle.theory.proofs.Tallies.{prices_laws};
ghost use Rattle.tally.specs.Means.{number_or_none};
ghost use Rattle.std.specs.Prelude.{Option as Maybe};

use crate::interface::Tally;
use crate::numbers::UpTo;
use crate::numbers::joins::lower;

// What a tree costs, up to a thousand million.
pub type Amount = UpTo<1_000_000_000>;

// The tally of the lowest price.
#[derive(Clone, Copy)]
pub struct Price;

// Like Grade's but for top, join, laws and weight: one impl over a trait of both would leave TOP
// unconstrained, and a generic struct for both would lose the two names as values.
impl Tally for Price {
    type Value = Option<Amount>;

    ghost Meaning = { Maybe (tallies.UpTo tallies.top_price) };

    ghost algebra = { tallies.prices };

    ghost laws = { prices_laws };

    ghost means = { number_or_none };

    ghost weighs = { λ _. tallies.price_weight };

    fn zero(&self) -> Option<Amount> {
        None
    }

    fn one(&self) -> Option<Amount> {
        Some(UpTo::new(0))
    }

    fn plus(&self, a: Option<Amount>, b: Option<Amount>) -> Option<Amount> {
        lower(a, b)
    }

    fn times(&self, a: Option<Amount>, b: Option<Amount>) -> Option<Amount> {
        Some(a?.plus(b?))
    }

    fn weight(&self, _task: usize, price: u32, _grade: u32) -> Option<Amount> {
        Some(UpTo::new(u64::from(price)))
    }
}
