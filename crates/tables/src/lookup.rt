ghost use Rattle.std.specs.Prelude.{◌≡◌, map};
ghost use Rattle.reading.specs.Tables.{index_of};
ghost use Rattle.tables.specs.Held.{symbol_in};

use crate::entries::{Action, Named, Task};
use theory::Subtask;

// The number of the first that has this name.
pub fn find<T: Named>(items: &[T], name: &[u8]) -> Option<usize>
    ensures { result ≡ index_of name.now (map T.text items.now) }
{
    items.iter().position(|item| item.name().as_bytes() == name)
}

// The action or the task of this name.
pub fn find_symbol(actions: &[Action], tasks: &[Task], name: &[u8]) -> Option<Subtask>
    ensures { result ≡ symbol_in actions.now tasks.now name.now }
{
    if let Some(a) = find(actions, name) {
        return Some(Subtask::Primitive(a));
    }
    find(tasks, name).map(|t| Subtask::Compound(t))
}
