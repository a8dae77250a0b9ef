ghost use Rattle.std.specs.Prelude.{◌≡◌, Some};
ghost use Rattle.fields.specs.declared.faults.LineFault.TheVariants.{Field};
ghost use Rattle.reading.specs.declared.faults.DomainFault.TheVariants.{Line};
ghost use Rattle.reading.specs.Faults.{fault_text, reported};
ghost use Rattle.reading.specs.Faults as plain;
ghost use Rattle.reading.specs.Told.{told};

use fields::{FieldCause, FieldFault, LineFault};
use std::fmt;

// Why a line is refused: what its form, its letter and its number of fields leave, and then what the domain says.
#[derive(Clone, Copy)]
pub enum DomainFault {
    // the line itself or one of its fields
    Line(LineFault),
    // the name in this field is declared already
    Declared(u8),
    // a name in this field is not declared as the kind wanted
    Undeclared(u8),
    // the table is full
    Full,
    // an action adds and deletes one fact
    Clash,
    // the mark rule is broken
    Mark,
    // the ladder rule is broken
    Ladder,
}

impl From<LineFault> for DomainFault {
    ghost from_gives = { λ e r. r ≡ Line e };

    fn from(e: LineFault) -> DomainFault {
        DomainFault::Line(e)
    }
}

impl From<FieldFault> for DomainFault {
    ghost from_gives = { λ e r. r ≡ Line (Field e) };

    fn from(e: FieldFault) -> DomainFault {
        DomainFault::Line(LineFault::Field(e))
    }
}

// A refusal: its cause and the line that it stands on, from 1.
#[derive(Clone, Copy)]
pub struct Fault {
    pub cause: DomainFault,
    pub line: usize,
}

// What a refusal is reported with. They are numbers, since the format of a refusal fixes the numbers that are printed.
#[derive(Clone, Copy)]
struct Report {
    number: u8,
    layer: u8,
    field: usize,
}

impl Report {
    fn new(number: u8, layer: u8, field: usize) -> Report
        ensures { told result ≡ plain.report number layer field }
    {
        Report {
            number,
            layer,
            field,
        }
    }
}

impl Fault {
    // The refusal's number.
    pub fn number(&self) -> u8
        ensures { result ≡ (reported self.now.cause).number }
    {
        self.report().number
    }

    // The layer that refused: 1 the field, 2 the line, 3 the domain.
    pub fn layer(&self) -> u8
        ensures { result ≡ (reported self.now.cause).layer }
    {
        self.report().layer
    }

    // The field, from 1; for a wrong number of fields, how many there are.
    pub fn field(&self) -> usize
        ensures { result ≡ (reported self.now.cause).field }
    {
        self.report().field
    }

    fn report(&self) -> Report
        ensures { told result ≡ reported self.now.cause }
    {
        match self.cause {
            DomainFault::Line(LineFault::Letter) => Report::new(3, 2, 1),
            DomainFault::Line(LineFault::Count(n)) => Report::new(2, 2, n),
            DomainFault::Line(LineFault::Field(f)) => match f.cause {
                FieldCause::Form => Report::new(1, 1, usize::from(f.field)),
                FieldCause::Range => Report::new(6, 1, usize::from(f.field)),
            },
            DomainFault::Declared(k) => Report::new(4, 3, usize::from(k)),
            DomainFault::Undeclared(k) => Report::new(5, 3, usize::from(k)),
            DomainFault::Full => Report::new(7, 3, 1),
            DomainFault::Clash => Report::new(8, 3, 5),
            DomainFault::Mark => Report::new(9, 3, 5),
            DomainFault::Ladder => Report::new(10, 3, 5),
        }
    }
}

// A refusal as it is reported: the letter R, its number, layer, line and field, parted by tabs.
impl fmt::Display for Fault {
    ghost output = { λ f. Some (fault_text f) };

    fn fmt<W: fmt::Write>(&self, f: &mut fmt::Formatter<W>) -> fmt::Result {
        let number = self.number();
        let layer = self.layer();
        let line = self.line;
        let field = self.field();
        write!(f, "R\t{number}\t{layer}\t{line}\t{field}")
    }
}
