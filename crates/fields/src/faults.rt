ghost use Rattle.std.specs.Prelude.{◌≡◌};
ghost use Rattle.fields.specs.declared.faults.FieldCause.TheVariants.{Form, Range};
ghost use Rattle.fields.specs.declared.faults.LineFault.TheVariants.{Field};

// Why a field is refused: it is not of its form, or its number or its list's length is outside its range.
#[derive(Clone, Copy)]
pub enum FieldCause {
    Form,
    Range,
}

// A field's fault; fields are counted from 1, the letter being the first.
#[derive(Clone, Copy)]
pub struct FieldFault {
    pub cause: FieldCause,
    pub field: u8,
}

impl FieldFault {
    // The field is not of its form.
    pub(crate) fn form(field: u8) -> FieldFault
        ensures { result ≡ record { cause = Form; field = field } }
    {
        FieldFault {
            cause: FieldCause::Form,
            field,
        }
    }

    // The number, or the length of the list, is outside its range.
    pub(crate) fn range(field: u8) -> FieldFault
        ensures { result ≡ record { cause = Range; field = field } }
    {
        FieldFault {
            cause: FieldCause::Range,
            field,
        }
    }
}

// A line's fault: its letter is unknown or not allowed here; it has so many fields and should have another number,
// or is too long; one of its fields is at fault.
#[derive(Clone, Copy)]
pub enum LineFault {
    Letter,
    Count(usize),
    Field(FieldFault),
}

impl From<FieldFault> for LineFault {
    ghost from_gives = { λ e r. r ≡ Field e };

    fn from(e: FieldFault) -> LineFault {
        LineFault::Field(e)
    }
}
