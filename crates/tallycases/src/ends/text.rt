ghost use Rattle.std.specs.Prelude.{Some};
ghost use Rattle.tallycases.specs.Text.{ends_text};

use crate::ends::Ends;
use std::fmt;

impl fmt::Display for Ends {
    ghost output = { λ x. Some (ends_text x) };

    fn fmt<W: fmt::Write>(&self, f: &mut fmt::Formatter<W>) -> fmt::Result {
        match self {
            Ends::NoTree => write!(f, "no tree"),
            Ends::NoMethod => write!(f, "no method"),
            Ends::Methods { first, last } => write!(f, "{first} to {last}"),
        }
    }
}
