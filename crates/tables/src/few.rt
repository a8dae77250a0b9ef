ghost use Rattle.std.specs.Prelude.{◌≡◌, ◌≤◌, length};
ghost use Rattle.std.specs.Option.{option_map};
ghost use Rattle.tables.specs.Held.{few_items, grown};

// A list of at most four, by how many there are.
// In place and no Vec, since no line may need memory; `Few` and `Method` are public and Copy, which an ArrayVec is not.
// No Model: an enum can't have one.
#[derive(Clone, Copy)]
pub enum Few<T> {
    Zero,
    One([T; 1]),
    Two([T; 2]),
    Three([T; 3]),
    Four([T; 4]),
}

impl<T: Copy> Few<T> {
    pub fn as_slice(&self) -> &[T]
        ensures items { result.now ≡ few_items self.now }
        ensures few { length result.now ≤ 4 }
    {
        match self {
            Few::Zero => &[],
            Few::One(a) => a,
            Few::Two(a) => a,
            Few::Three(a) => a,
            Few::Four(a) => a,
        }
    }

    // The list with x at its end, where there is room.
    pub fn with(self, x: T) -> Option<Few<T>>
        ensures { option_map few_items result ≡ grown (few_items self) x }
    {
        match self {
            Few::Zero => Some(Few::One([x])),
            Few::One(a) => Some(Few::Two([a[0], x])),
            Few::Two(a) => Some(Few::Three([a[0], a[1], x])),
            Few::Three(a) => Some(Few::Four([a[0], a[1], a[2], x])),
            Few::Four(_) => None,
        }
    }
}
