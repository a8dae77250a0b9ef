#![tactic(auto)]

mod faults;
mod kinds;
mod laws;

pub use faults::{DomainFault, Fault};
pub use kinds::{Kind, Section};
pub use laws::{closed_is_sound, closed_stays, examples_hold, first_fault_stays, text_declares};
