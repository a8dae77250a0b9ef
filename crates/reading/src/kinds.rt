ghost use Rattle.std.specs.Prelude.{◌≡◌};
ghost use Rattle.std.specs.Option.{ok_or};
ghost use Rattle.fields.specs.declared.faults.LineFault.TheVariants.{Letter};
ghost use Rattle.reading.specs.Reading.{kind_at};

use fields::LineFault;

// The kinds of lines.
#[derive(Clone, Copy)]
pub enum Kind {
    Fact,
    Action,
    Task,
    Method,
    Before,
    After,
    Between,
    Closing,
}

// The kind of line that a letter stands for: a match on the letters, each of which is one kind for good.
impl TryFrom<char> for Kind {
    type Error = LineFault;

    ghost try_from_gives = { λ c r. r ≡ ok_or (kind_at c) Letter };

    fn try_from(letter: char) -> Result<Kind, LineFault> {
        match letter {
            'F' => Ok(Kind::Fact),
            'A' => Ok(Kind::Action),
            'T' => Ok(Kind::Task),
            'M' => Ok(Kind::Method),
            'B' => Ok(Kind::Before),
            'P' => Ok(Kind::After),
            'K' => Ok(Kind::Between),
            'E' => Ok(Kind::Closing),
            _ => Err(LineFault::Letter),
        }
    }
}

// The group that the last accepted line belongs to; Facts at the start.
#[derive(Clone, Copy)]
pub enum Section {
    Facts,
    Actions,
    Tasks,
    Methods,
    Closed,
}
