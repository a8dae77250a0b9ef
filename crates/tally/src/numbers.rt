ghost use Rattle.std.specs.Prelude.{◌≤◌};

pub(crate) mod joins;

// A number up to the top. No Model: contracts speak of the number with its bound, which the ghost field carries.
#[derive(Clone, Copy, PartialEq, Eq, PartialOrd, Ord)]
pub struct UpTo<const TOP: u32> {
    value: u32,
    ghost within: { value ≤ TOP },
}
