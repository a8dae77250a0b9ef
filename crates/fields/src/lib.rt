#![tactic(auto)]

ghost use Rattle.fields.specs.Text.{FieldsRejoin};

mod faults;
mod line;
mod name;
mod pieces;

pub use faults::{FieldCause, FieldFault, LineFault};
pub use line::Line;
pub use name::Name;
pub use pieces::Pieces;

// A line's fields, joined by tabs, are the line, and no other fields without tabs are.
pub fn fields_rejoin()
    ensures { FieldsRejoin }
{}
