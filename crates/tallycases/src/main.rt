#![tactic(auto)]

ghost use Rattle.std.specs.Prelude.{◌≡◌, Some};
ghost use Rattle.theory.specs.Tallies.{stop};
ghost use Rattle.tally.specs.Means.{number_or_none};

mod ends;
mod methods;
mod shown;
mod sums;
mod tables;

use ends::Ends;
use ends::first::FirstEnds;
use shown::Shown;
use std::io;
use sums::pair_sum;
use tables::Tables;
use tally::{Answer, Count, Grade, Pair, Price, UpTo, Verdict};

// Prints the operations of every tally at the edges of its values, and sums and products of lists.
fn main(rt: HostRuntime) -> io::Result<()> {
    print_verdicts(&rt)?;
    print_counts(&rt)?;
    print_prices(&rt)?;
    print_grades(&rt)?;
    print_pairs(&rt)?;
    print_ends(&rt)
}

// A number that is not none.
fn some<const TOP: u32>(value: u64) -> Option<UpTo<TOP>>
    ensures { number_or_none result ≡ Some (stop TOP value) }
{
    Some(UpTo::new(value))
}

fn print_verdicts(rt: &HostRuntime) -> io::Result<()> {
    let values = [Answer::No, Answer::Yes];
    let tables = Tables {
        name: "verdict",
        tally: &Verdict,
        values: &values,
        xs: &values,
        ys: &[Answer::Yes],
        factor: Answer::Yes,
    };
    tables.print(rt)
}

fn print_counts(rt: &HostRuntime) -> io::Result<()> {
    let tables = Tables {
        name: "count",
        tally: &Count,
        values: &[
            UpTo::new(0),
            UpTo::new(1),
            UpTo::new(1000),
            UpTo::new(1001),
            UpTo::new(999_999),
            UpTo::new(1_000_000),
            UpTo::new(1_000_001),
        ],
        xs: &[UpTo::new(2), UpTo::new(3)],
        ys: &[UpTo::new(5), UpTo::new(7)],
        factor: UpTo::new(11),
    };
    tables.print(rt)
}

fn print_prices(rt: &HostRuntime) -> io::Result<()> {
    let tables = Tables {
        name: "price",
        tally: &Price,
        values: &[
            None,
            some(0),
            some(1),
            some(999_999_999),
            some(1_000_000_000),
        ],
        xs: &[some(20), some(30)],
        ys: &[some(5)],
        factor: some(7),
    };
    tables.print(rt)
}

fn print_grades(rt: &HostRuntime) -> io::Result<()> {
    let tables = Tables {
        name: "grade",
        tally: &Grade,
        values: &[None, some(0), some(1), some(8), some(9)],
        xs: &[some(4), some(2)],
        ys: &[some(7)],
        factor: some(3),
    };
    tables.print(rt)
}

fn print_pairs(rt: &HostRuntime) -> io::Result<()> {
    let pair = Pair {
        first: Count,
        second: Price,
    };
    let values = [
        (UpTo::new(2), some(20)),
        (UpTo::new(3), some(30)),
        (UpTo::new(0), None),
    ];
    let tables = Tables {
        name: "pair",
        tally: &pair,
        values: &values,
        xs: &values,
        ys: &[(UpTo::new(5), some(7))],
        factor: (UpTo::new(2), some(1)),
    };
    tables.print(rt)?;
    let total = Shown(pair_sum(&pair, &values));
    println!(rt; "pair: the values add up to {total}, part by part")
}

fn print_ends(rt: &HostRuntime) -> io::Result<()> {
    let a = Ends::Methods { first: 1, last: 2 };
    let b = Ends::Methods { first: 3, last: 4 };
    let tables = Tables {
        name: "ends",
        tally: &FirstEnds,
        values: &[Ends::NoTree, Ends::NoMethod, a, b],
        xs: &[Ends::NoTree, a],
        ys: &[b],
        factor: b,
    };
    tables.print(rt)
}
