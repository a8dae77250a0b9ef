#![tactic(auto)]

mod entries;
mod few;
mod lookup;
mod rules;

pub use entries::{Action, Method, Named, Task};
pub use few::Few;
pub use lookup::{find, find_symbol};
pub use rules::{keeps_ladder, keeps_mark};
