ghost use Rattle.std.specs.Prelude.{◌≡◌};
ghost use Rattle.theory.specs.Tallies as tallies;
ghost use Rattle.tally.specs.Means.{number, number_or_none};

use crate::numbers::UpTo;

impl<const TOP: u32> UpTo<TOP> {
    // The number, stopping at the top.
    pub fn new(value: u64) -> Self
        ensures { number result ≡ tallies.stop TOP value }
    {
        UpTo {
            value: u32::try_from(value).unwrap_or(TOP).min(TOP),
        }
    }

    pub fn value(self) -> u32
        ensures { result ≡ (number self.entry).value }
    {
        self.value
    }

    // The sum, stopping at the top.
    pub(crate) fn plus(self, other: Self) -> Self
        ensures { number result ≡ tallies.added (number self.entry) (number other.entry) }
    {
        UpTo::new(u64::from(self.value) + u64::from(other.value))
    }

    // The product, stopping at the top.
    pub(crate) fn times(self, other: Self) -> Self
        ensures { number result ≡ tallies.multiplied (number self.entry) (number other.entry) }
    {
        UpTo::new(u64::from(self.value) * u64::from(other.value))
    }
}

// The lower of two, none being the highest.
pub(crate) fn lower<const TOP: u32>(a: Option<UpTo<TOP>>, b: Option<UpTo<TOP>>) -> Option<UpTo<TOP>>
    ensures { number_or_none result ≡ tallies.lower (number_or_none a.entry) (number_or_none b.entry) }
{
    match (a, b) {
        (Some(x), Some(y)) => Some(x.min(y)),
        (None, other) | (other, None) => other,
    }
}
