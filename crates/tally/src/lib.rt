#![tactic(auto)]

mod counts;
mod grades;
mod interface;
mod laws;
mod numbers;
mod pairs;
mod prices;
mod text;
mod verdicts;

pub use counts::{Count, Trees};
pub use grades::{Grade, Licence};
pub use interface::Tally;
pub use laws::{four_tallies, parts_hold, sums_hold};
pub use numbers::UpTo;
pub use pairs::Pair;
pub use prices::{Amount, Price};
pub use verdicts::Answer;
pub use verdicts::tally::Verdict;
