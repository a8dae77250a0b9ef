ghost use Rattle.std.specs.Prelude.{◌≡◌, ◌&&◌, ◌||◌};
ghost use Rattle.tally.specs.Means.{is_yes};

use crate::verdicts::Answer;

impl Answer {
    pub(crate) fn or(self, other: Answer) -> Answer
        ensures { is_yes result ≡ (is_yes self || is_yes other) }
    {
        match self {
            Answer::No => other,
            Answer::Yes => self,
        }
    }

    pub(crate) fn and(self, other: Answer) -> Answer
        ensures { is_yes result ≡ (is_yes self && is_yes other) }
    {
        match self {
            Answer::No => self,
            Answer::Yes => other,
        }
    }
}
