ghost use Rattle.std.specs.Prelude.{◌≡◌};
ghost use Rattle.theory.specs.Algebra.{Algebra, Laws, Weights};

// A tally: the values that an answer is made of, how two of them are joined, and what a method weighs.
// Of a tally nothing else is known than that its values stand for those of an algebra which keeps the laws.
pub trait Tally {
    type Value: Copy;

    // The mathematical values.
    ghost Meaning: { Type 0 };

    // Their zero and one, plus and times.
    ghost algebra: { Algebra Meaning };

    // The laws, which every tally has to show.
    ghost laws: { Laws algebra };

    // The mathematical value that a value stands for.
    ghost means: { Self.Value → Meaning };

    // The weight of a method.
    ghost weighs: { Self → Weights Meaning };

    fn zero(&self) -> Self::Value
        ensures { means result ≡ algebra.zero };

    fn one(&self) -> Self::Value
        ensures { means result ≡ algebra.one };

    fn plus(&self, a: Self::Value, b: Self::Value) -> Self::Value
        ensures { means result ≡ algebra.plus (means a) (means b) };

    fn times(&self, a: Self::Value, b: Self::Value) -> Self::Value
        ensures { means result ≡ algebra.times (means a) (means b) };

    // Three numbers and no struct, as weighs takes them: an impl names those that it weighs by.
    fn weight(&self, task: usize, price: u32, grade: u32) -> Self::Value
        ensures { means result ≡ weighs self.now task price grade };
}
