ghost use Rattle.std.specs.Prelude.{◌≡◌, IfOk, None};
ghost use Rattle.std.specs.Option.{option_map};
ghost use Rattle.reading.specs.Reading as plain;
ghost use Rattle.domain.specs.Held.{stands, closed_tables, lines_read};
ghost use Rattle.domain.specs.Steps.{Taken, line_in, told, section_after, kind_in, refusing};

use crate::domain::Domain;
use fields::{Line, LineFault};
use reading::{DomainFault, Fault, Kind, Section};
use std::alloc::{AllocError, Global};

// A reader of a domain, line by line. No Model: it would hide the fields that the contracts of the private functions name.
#[derive(Drop)]
pub struct Reader {
    // how many lines were read, up to the first fault
    lines: usize,
    // the first fault before the closing line
    refused: Option<Fault>,
    // the group of the last accepted line
    section: Section,
    domain: Domain,
}

impl Reader {
    // A reader that has read nothing. All the memory that it will ever need is reserved here.
    pub fn new(heap: Global) -> Result<Reader, AllocError>
        ensures { IfOk result (λ d. stands d ≡ plain.start) }
    {
        let domain = Domain::new(heap)?;
        Ok(Reader {
            lines: 0,
            refused: None,
            section: Section::Facts,
            domain,
        })
    }

    // Takes the next line, without its line end. After a refusal each further line gets that first fault back;
    // after the closing line each gets the letter fault, and the domain stays.
    pub fn read_line(&mut self, bytes: &[u8]) -> Result<(), Fault>
        ensures { plain.reads (stands self.old) bytes.now ≡ (result, stands self.new) }
    {
        if let Some(first) = self.refused {
            return Err(first);
        }
        self.lines = self.lines.saturating_add(1);
        // no map_err: the proof learns nothing of a reader that a closure changes
        match self.take(bytes) {
            Ok(()) => Ok(()),
            Err(cause) => Err(self.refuse(cause)),
        }
    }

    // How many lines were read, up to the first fault.
    pub fn lines(&self) -> usize
        ensures { result ≡ lines_read (stands self.now) }
    {
        self.refused.map_or(self.lines, |first| first.line)
    }

    // The domain, once it is closed.
    pub fn domain(&self) -> Option<&Domain>
        ensures { option_map told result ≡ closed_tables (stands self.now) }
    {
        match (self.refused, self.section) {
            (None, Section::Closed) => Some(&self.domain),
            _ => None,
        }
    }

    // Takes a line where none was refused.
    fn take(&mut self, bytes: &[u8]) -> Result<(), DomainFault>
        ensures { Taken result self.old self.new (line_in self.old bytes.now) }
    {
        let line = Line::cut(bytes);
        let kind = kind_of(line.field(1))?;
        let next = self.section_after(kind)?;
        line.check_count(field_count(kind))?;
        self.domain.declare(kind, &line)?;
        self.section = next;
        Ok(())
    }

    // The group of a line that may stand here. Section and kind are matched together, since what may come next depends on both.
    fn section_after(&self, kind: Kind) -> Result<Section, LineFault>
        ensures { result ≡ section_after self.now.section kind }
    {
        match (self.section, kind) {
            (Section::Facts, Kind::Fact) => Ok(Section::Facts),
            (Section::Facts | Section::Actions, Kind::Action) => Ok(Section::Actions),
            (Section::Facts | Section::Actions | Section::Tasks, Kind::Task) => Ok(Section::Tasks),
            (Section::Methods, Kind::Before | Kind::After | Kind::Between) => Ok(Section::Methods),
            (Section::Closed, _) => Err(LineFault::Letter),
            (_, Kind::Method) => Ok(Section::Methods),
            (_, Kind::Closing) => Ok(Section::Closed),
            _ => Err(LineFault::Letter),
        }
    }

    // A fault at the line read last; before the closing line it is kept for ever.
    fn refuse(&mut self, cause: DomainFault) -> Fault
        requires { self.old.refused ≡ None }
        ensures fault { result ≡ plain.fault_at cause self.old.lines }
        ensures after { stands self.new ≡ refusing self.old cause }
    {
        let fault = Fault {
            cause,
            line: self.lines,
        };
        if !matches!(self.section, Section::Closed) {
            self.refused = Some(fault);
        }
        fault
    }
}

// The kind of line that the first field asks for: one letter.
fn kind_of(field: &[u8]) -> Result<Kind, LineFault>
    ensures { result ≡ kind_in field.now }
{
    match field {
        [letter] => Kind::try_from(char::from(*letter)),
        _ => Err(LineFault::Letter),
    }
}

// How many fields a line has, the letter too. A match, since the format gives each of the eight kinds its number.
fn field_count(kind: Kind) -> usize
    ensures { result ≡ plain.field_count kind }
{
    match kind {
        Kind::Closing => 1,
        Kind::Fact => 2,
        Kind::Before | Kind::After => 3,
        Kind::Task | Kind::Between => 4,
        Kind::Action | Kind::Method => 5,
    }
}
