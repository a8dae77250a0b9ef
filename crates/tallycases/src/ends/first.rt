ghost use Rattle.tallycases.specs.Ends.{ends, ends_weight};
ghost use Rattle.tallycases.specs.Laws.{ends_laws};
ghost use Rattle.tallycases.specs.declared.ends.Ends as values;

use crate::ends::Ends;
use tally::Tally;

// A tally of the first tree's ends. Plus keeps the first tree and times the outer ends, so that neither commutes.
#[derive(Clone, Copy)]
pub struct FirstEnds;

impl Tally for FirstEnds {
    type Value = Ends;

    ghost Meaning = { values.Ends };

    ghost algebra = { ends };

    ghost laws = { ends_laws };

    ghost means = { λ x. x };

    ghost weighs = { λ _. ends_weight };

    fn zero(&self) -> Ends {
        Ends::NoTree
    }

    fn one(&self) -> Ends {
        Ends::NoMethod
    }

    fn plus(&self, a: Ends, b: Ends) -> Ends {
        match a {
            Ends::NoTree => b,
            _ => a,
        }
    }

    fn times(&self, a: Ends, b: Ends) -> Ends {
        match (a, b) {
            (Ends::NoTree, _) => a,
            (Ends::NoMethod, _) => b,
            (_, Ends::NoTree) => b,
            (_, Ends::NoMethod) => a,
            (Ends::Methods { first, .. }, Ends::Methods { last, .. }) => Ends::Methods {
                first,
                last,
            },
        }
    }

    fn weight(&self, task: usize, _price: u32, _grade: u32) -> Ends {
        Ends::Methods {
            first: task,
            last: task,
        }
    }
}
