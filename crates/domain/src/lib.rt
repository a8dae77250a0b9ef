#![tactic(auto)]

mod domain;
mod reader;

pub use domain::Domain;
pub use reader::Reader;
