ghost use Rattle.std.specs.Prelude.{◌≡◌};
ghost use Rattle.std.specs.Fn.{FnOnceReturnsAt};
ghost use Rattle.fields.specs.Held.{line_fields};
ghost use Rattle.fields.specs.Read.{name_in};
ghost use Rattle.reading.specs.Lines as plain;
ghost use Rattle.lines.specs.Names.{NewName, OldName};

use fields::{Line, Name};
use reading::DomainFault;

// A name that stands for nothing yet, by the lookup that is handed in.
// line and k are two parameters, here and in the callers, as they are of the questions of Line.
pub(crate) fn new_name<T: Drop, F: FnOnce(&[u8]) -> Option<T>>(
    line: &Line,
    k: u8,
    find: F,
) -> Result<Name, DomainFault>
    requires { F.IsAlwaysCallable find }
    ensures { NewName (name_in (line_fields line.now) k) (FnOnceReturnsAt F.FnOnce find) k result }
{
    let name = line.name(k)?;
    if find(name.as_bytes()).is_some() {
        return Err(DomainFault::Declared(k));
    }
    Ok(name)
}

// What a declared name stands for, by the lookup that is handed in.
pub(crate) fn old_name<T, F: FnOnce(&[u8]) -> Option<T>>(
    line: &Line,
    k: u8,
    find: F,
) -> Result<T, DomainFault>
    requires { F.IsAlwaysCallable find }
    ensures { OldName (name_in (line_fields line.now) k) (FnOnceReturnsAt F.FnOnce find) k result }
{
    let name = line.name(k)?;
    find(name.as_bytes()).ok_or(DomainFault::Undeclared(k))
}

// Whether fewer than the most stand in a table.
pub(crate) fn room<T>(table: &[T], most: usize) -> Result<(), DomainFault>
    ensures { result ≡ plain.room most table.now }
{
    if table.len() >= most {
        return Err(DomainFault::Full);
    }
    Ok(())
}
