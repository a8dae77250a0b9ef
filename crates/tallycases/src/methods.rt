// What a method says of itself to a tally.
#[derive(Clone, Copy)]
pub(crate) struct Terms {
    pub(crate) task: usize,
    pub(crate) price: u32,
    pub(crate) grade: u32,
}

// Methods at the edges of prices and grades.
pub(crate) const METHODS: [Terms; 7] = [
    Terms {
        task: 0,
        price: 0,
        grade: 0,
    },
    Terms {
        task: 47,
        price: 1,
        grade: 1,
    },
    Terms {
        task: 3,
        price: 1000,
        grade: 8,
    },
    Terms {
        task: 3,
        price: 999_999_999,
        grade: 9,
    },
    Terms {
        task: 3,
        price: 1_000_000_000,
        grade: 10,
    },
    Terms {
        task: 3,
        price: 1_000_000_001,
        grade: 11,
    },
    Terms {
        task: 3,
        price: 4_294_967_295,
        grade: 4_294_967_295,
    },
];
