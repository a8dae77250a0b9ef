#![tactic(auto)]

mod filled;
mod lawful;
mod lines;
mod names;

pub use filled::Tables;
pub use lawful::LawfulTables;
