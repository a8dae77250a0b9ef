ghost use Rattle.theory.specs.Algebra.{Sums};
ghost use Rattle.theory.specs.Tallies.{Parts};
ghost use Rattle.tally.specs.Stands.{FourTallies};

use crate::interface::Tally;
use crate::pairs::Pair;

// Sums and products over lists, for every tally: over two lists one after the other, and with a factor on either side.
pub fn sums_hold<T: Tally>(_tally: &T)
    ensures { Sums T.algebra }
{}

// A pair's sums and products are pairs of sums and products.
pub fn parts_hold<A: Tally, B: Tally>(_pair: &Pair<A, B>)
    ensures { Parts A.Tally.algebra B.Tally.algebra }
{}

// Verdict, Count, Price and Grade are the algebras of these names, value by value.
pub fn four_tallies()
    ensures { FourTallies }
{}
