ghost use Rattle.std.specs.Prelude.{◌≡◌, ◌++◌};
ghost use Rattle.tallycases.specs.Lists.{sum_of, product_of};

use tally::{Pair, Tally};

// The sum of the values in their order.
pub(crate) fn sum<T: Tally>(tally: &T, values: &[T::Value]) -> T::Value
    ensures { T.means result ≡ sum_of T.algebra T.means values.now }
{
    values
        .iter()
        .fold(tally.zero(), |all, x| tally.plus(all, *x))
}

// The product of the values in their order.
pub(crate) fn product<T: Tally>(tally: &T, values: &[T::Value]) -> T::Value
    ensures { T.means result ≡ product_of T.algebra T.means values.now }
{
    values
        .iter()
        .fold(tally.one(), |all, x| tally.times(all, *x))
}

// Four functions of one line each from here: a common form would take the operations and the laws as arguments. They are
// no methods of Tables, since each contract stands for any lists.

// The sum of two lists, one after the other, by their sums.
pub(crate) fn joint_sum<T: Tally>(tally: &T, xs: &[T::Value], ys: &[T::Value]) -> T::Value
    ensures { T.means result ≡ sum_of T.algebra T.means (xs.now ++ ys.now) }
{
    tally.plus(sum(tally, xs), sum(tally, ys))
}

// The product of two lists, one after the other, by their products.
pub(crate) fn joint_product<T: Tally>(tally: &T, xs: &[T::Value], ys: &[T::Value]) -> T::Value
    ensures { T.means result ≡ product_of T.algebra T.means (xs.now ++ ys.now) }
{
    tally.times(product(tally, xs), product(tally, ys))
}

// The sum of x times each value, by one multiplication.
pub(crate) fn scaled<T: Tally>(tally: &T, x: T::Value, values: &[T::Value]) -> T::Value
    ensures { T.means result ≡ sum_of T.algebra (λ v. T.algebra.times (T.means x) (T.means v)) values.now }
{
    tally.times(x, sum(tally, values))
}

// The sum of each value times x, by one multiplication.
pub(crate) fn scaled_right<T: Tally>(tally: &T, values: &[T::Value], x: T::Value) -> T::Value
    ensures { T.means result ≡ sum_of T.algebra (λ v. T.algebra.times (T.means v) (T.means x)) values.now }
{
    tally.times(sum(tally, values), x)
}

// The sum of pairs: in each part the sum by that part's own tally.
pub(crate) fn pair_sum<A: Tally, B: Tally>(
    pair: &Pair<A, B>,
    values: &[(A::Value, B::Value)],
) -> (A::Value, B::Value)
    ensures first { A.Tally.means result.0 ≡ sum_of A.Tally.algebra (λ v. A.Tally.means v.0) values.now }
    ensures second { B.Tally.means result.1 ≡ sum_of B.Tally.algebra (λ v. B.Tally.means v.1) values.now }
{
    sum(pair, values)
}
