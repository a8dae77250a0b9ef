use crate::methods::{METHODS, Terms};
use crate::shown::Shown;
use crate::sums::{joint_product, joint_sum, scaled, scaled_right};
use std::fmt::Display;
use std::io;
use tally::Tally;

// What the tables of a tally are printed of.
#[derive(Drop)]
pub(crate) struct Tables<'a, T: Tally> {
    pub(crate) name: &'a str,
    pub(crate) tally: &'a T,

    // The values that are joined, each with each.
    pub(crate) values: &'a [T::Value],

    // Two lists, which stand one after the other, and a factor of the first.
    pub(crate) xs: &'a [T::Value],
    pub(crate) ys: &'a [T::Value],
    pub(crate) factor: T::Value,
}

impl<T: Tally + Drop> Tables<'_, T>
where
    Shown<T::Value>: Display,
{
    // Prints all of them.
    pub(crate) fn print(&self, rt: &HostRuntime) -> io::Result<()> {
        self.print_operations(rt)?;
        self.print_weights(rt)?;
        self.print_lists(rt)
    }

    // Prints the zero and the one, and plus and times of each two of the values.
    fn print_operations(&self, rt: &HostRuntime) -> io::Result<()> {
        let name = self.name;
        let (zero, one) = (Shown(self.tally.zero()), Shown(self.tally.one()));
        println!(rt; "{name}: zero {zero}, one {one}")?;
        for a in self.values {
            for b in self.values {
                self.print_joins(rt, *a, *b)?;
            }
        }
        Ok(())
    }

    fn print_joins(&self, rt: &HostRuntime, a: T::Value, b: T::Value) -> io::Result<()> {
        let name = self.name;
        let plus = Shown(self.tally.plus(a, b));
        let times = Shown(self.tally.times(a, b));
        let (a, b) = (Shown(a), Shown(b));
        println!(rt; "{name}: {a} plus {b} is {plus}")?;
        println!(rt; "{name}: {a} times {b} is {times}")
    }

    // Prints the weight of each of the methods.
    fn print_weights(&self, rt: &HostRuntime) -> io::Result<()> {
        let name = self.name;
        for Terms { task, price, grade } in METHODS {
            let weight = Shown(self.tally.weight(task, price, grade));
            println!(rt; "{name}: task {task}, price {price}, grade {grade} weighs {weight}")?;
        }
        Ok(())
    }

    // Prints what the two lists come to, and the first with the factor on either side.
    fn print_lists(&self, rt: &HostRuntime) -> io::Result<()> {
        let Tables {
            name,
            tally,
            xs,
            ys,
            factor,
            ..
        } = *self;
        let sum = Shown(joint_sum(tally, xs, ys));
        let product = Shown(joint_product(tally, xs, ys));
        println!(rt; "{name}: both lists add up to {sum}, multiply to {product}")?;
        let left = Shown(scaled(tally, factor, xs));
        let right = Shown(scaled_right(tally, xs, factor));
        let factor = Shown(factor);
        println!(rt;
            "{name}: the first list adds up to {left} after {factor}, to {right} before it"
        )
    }
}
