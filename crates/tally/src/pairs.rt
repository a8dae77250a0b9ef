ghost use Rattle.std.specs.Prelude.{◌≡◌};
ghost use Rattle.theory.specs.Tallies.{pair_of, pair_weight};
ghost use Rattle.tally.specs.Means.{Joins};
ghost use Rattle.theory.proofs.Tallies.{pair_laws};

use crate::interface::Tally;

// Two tallies side by side: one filling answers both.
#[derive(Clone, Copy)]
pub struct Pair<A, B> {
    pub first: A,
    pub second: B,
}

impl<A: Tally, B: Tally> Tally for Pair<A, B> {
    type Value = (A::Value, B::Value);

    ghost Meaning = { A.Tally.Meaning × B.Tally.Meaning };

    ghost algebra = { pair_of A.Tally.algebra B.Tally.algebra };

    ghost laws = { pair_laws A.Tally.laws B.Tally.laws };

    ghost means = { λ x. (A.Tally.means x.0, B.Tally.means x.1) };

    ghost weighs = { λ s. pair_weight (A.Tally.weighs s.first) (B.Tally.weighs s.second) };

    fn zero(&self) -> (A::Value, B::Value)
        ensures first { A.Tally.means result.0 ≡ A.Tally.algebra.zero }
        ensures second { B.Tally.means result.1 ≡ B.Tally.algebra.zero }
    {
        (self.first.zero(), self.second.zero())
    }

    fn one(&self) -> (A::Value, B::Value)
        ensures first { A.Tally.means result.0 ≡ A.Tally.algebra.one }
        ensures second { B.Tally.means result.1 ≡ B.Tally.algebra.one }
    {
        (self.first.one(), self.second.one())
    }

    fn plus(&self, a: (A::Value, B::Value), b: (A::Value, B::Value)) -> (A::Value, B::Value)
        ensures first { Joins A.Tally.means A.Tally.algebra.plus a.0 b.0 result.0 }
        ensures second { Joins B.Tally.means B.Tally.algebra.plus a.1 b.1 result.1 }
    {
        (self.first.plus(a.0, b.0), self.second.plus(a.1, b.1))
    }

    fn times(&self, a: (A::Value, B::Value), b: (A::Value, B::Value)) -> (A::Value, B::Value)
        ensures first { Joins A.Tally.means A.Tally.algebra.times a.0 b.0 result.0 }
        ensures second { Joins B.Tally.means B.Tally.algebra.times a.1 b.1 result.1 }
    {
        (self.first.times(a.0, b.0), self.second.times(a.1, b.1))
    }

    fn weight(&self, task: usize, price: u32, grade: u32) -> (A::Value, B::Value)
        ensures first { A.Tally.means result.0 ≡ A.Tally.weighs self.now.first task price grade }
        ensures second { B.Tally.means result.1 ≡ B.Tally.weighs self.now.second task price grade }
    {
        (
            self.first.weight(task, price, grade),
            self.second.weight(task, price, grade),
        )
    }
}
