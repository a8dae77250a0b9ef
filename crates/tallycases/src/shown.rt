ghost use Rattle.std.specs.Prelude.{Some};
ghost use Rattle.tally.specs.Text.{answer_text, number_text};
ghost use Rattle.tallycases.specs.Text.{ends_text, number_or_none_text, pair_text};

use crate::ends::Ends;
use std::fmt::{self, Display};
use tally::{Answer, UpTo};

// A value as the tables print it: options and pairs can have no Display of this repository.
// Five impls, since one for every V that is Display would overlap those for options and pairs.
#[derive(Clone, Copy)]
pub(crate) struct Shown<V>(pub(crate) V);

impl Display for Shown<Answer> {
    ghost output = { λ x. Some (answer_text x.0) };

    fn fmt<W: fmt::Write>(&self, f: &mut fmt::Formatter<W>) -> fmt::Result {
        let Shown(answer) = self;
        write!(f, "{answer}")
    }
}

impl<const TOP: u32> Display for Shown<UpTo<TOP>> {
    ghost output = { λ x. Some (number_text x.0) };

    fn fmt<W: fmt::Write>(&self, f: &mut fmt::Formatter<W>) -> fmt::Result {
        let Shown(number) = self;
        write!(f, "{number}")
    }
}

impl<const TOP: u32> Display for Shown<Option<UpTo<TOP>>> {
    ghost output = { λ x. Some (number_or_none_text x.0) };

    fn fmt<W: fmt::Write>(&self, f: &mut fmt::Formatter<W>) -> fmt::Result {
        match self.0 {
            None => write!(f, "none"),
            Some(number) => write!(f, "{number}"),
        }
    }
}

impl<A: Copy, B: Copy> Display for Shown<(A, B)>
where
    Shown<A>: Display,
    Shown<B>: Display,
{
    ghost output = { λ x. pair_text (⟦<Shown<A> as Display>⟧.output (record { 0 = x.0.0 }))
        (⟦<Shown<B> as Display>⟧.output (record { 0 = x.0.1 })) };

    fn fmt<W: fmt::Write>(&self, f: &mut fmt::Formatter<W>) -> fmt::Result {
        let (first, second) = (Shown(self.0.0), Shown(self.0.1));
        write!(f, "({first}, {second})")
    }
}

impl Display for Shown<Ends> {
    ghost output = { λ x. Some (ends_text x.0) };

    fn fmt<W: fmt::Write>(&self, f: &mut fmt::Formatter<W>) -> fmt::Result {
        let Shown(ends) = self;
        write!(f, "{ends}")
    }
}
