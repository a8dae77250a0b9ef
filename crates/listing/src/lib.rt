#![tactic(auto)]

mod listing;
mod names;
mod rows;

pub use listing::list_domain;
