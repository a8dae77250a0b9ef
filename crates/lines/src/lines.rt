ghost use Rattle.std.specs.Prelude.{◌≡◌, ◌≤◌, true, IfOk};
ghost use Rattle.fields.specs.Held.{name_text, answered};
ghost use Rattle.reading.specs.Tables.{empty, fact_of, task_of, symbol_of};
ghost use Rattle.reading.specs.Lines as plain;
ghost use Rattle.tables.specs.Held.{few_items, task_entry, method_entry};
ghost use Rattle.lines.specs.Closes.{meant, closes, roomy};
ghost use Rattle.lines.specs.Took.{Took, new_fact, new_symbol, old_fact, old_task, subtask_list, arity};
ghost use Rattle.lines.specs.Entries.{task_in, method_in, rules_for, position_in, between_in, with_subtask};

use crate::filled::{MOST_ACTIONS, MOST_FACTS, MOST_METHODS, MOST_TASKS, Tables};
use crate::names::{new_name, old_name};
use fields::{Line, Name};
use reading::DomainFault;
use std::alloc::{AllocError, Global};
use tables::{Few, Method, Task, find, find_symbol, keeps_ladder, keeps_mark};
use theory::{Constraint, Subtask};

impl Tables {
    // Empty tables with room for all that a domain may hold.
    pub(crate) fn new(heap: Global) -> Result<Tables, AllocError>
        ensures { IfOk result (λ t. (meant t ≡ empty) × (closes t ≡ true)) }
    {
        let facts = Vec::with_capacity(heap, MOST_FACTS)?;
        let actions = Vec::with_capacity(heap, MOST_ACTIONS)?;
        let tasks = Vec::with_capacity(heap, MOST_TASKS)?;
        let methods = Vec::with_capacity(heap, MOST_METHODS)?;
        Ok(Tables {
            facts,
            actions,
            tasks,
            methods,
        })
    }

    // The fact of a name.
    pub fn fact(&self, name: &[u8]) -> Option<usize>
        ensures { result ≡ fact_of (meant self.now) name.now }
    {
        find(self.facts.as_slice(), name)
    }

    // The task of a name.
    fn task_named(&self, name: &[u8]) -> Option<usize>
        ensures { result ≡ task_of (meant self.now) name.now }
    {
        find(self.tasks.as_slice(), name)
    }

    // The action or the task of a name.
    pub fn symbol(&self, name: &[u8]) -> Option<Subtask>
        ensures { result ≡ symbol_of (meant self.now) name.now }
    {
        find_symbol(self.actions.as_slice(), self.tasks.as_slice(), name)
    }

    // A name that no fact has yet.
    pub(crate) fn new_fact(&self, line: &Line, k: u8) -> Result<Name, DomainFault>
        ensures { answered name_text result ≡ new_fact self.now line.now k }
    {
        new_name(line, k, |name| self.fact(name))
    }

    // A name that no action and no task has yet.
    pub(crate) fn new_symbol(&self, line: &Line, k: u8) -> Result<Name, DomainFault>
        ensures { answered name_text result ≡ new_symbol self.now line.now k }
    {
        new_name(line, k, |name| self.symbol(name))
    }

    // The fact that a field names.
    pub(crate) fn old_fact(&self, line: &Line, k: u8) -> Result<usize, DomainFault>
        ensures { result ≡ old_fact self.now line.now k }
    {
        old_name(line, k, |name| self.fact(name))
    }

    // The task that a field names.
    fn old_task(&self, line: &Line, k: u8) -> Result<usize, DomainFault>
        ensures { result ≡ old_task self.now line.now k }
    {
        old_name(line, k, |name| self.task_named(name))
    }

    // The subtasks that a field lists.
    // A loop of its own beside that for a set of facts: one for both would take each step's own condition as an argument.
    fn subtask_list(&self, line: &Line, k: u8) -> Result<Few<Subtask>, DomainFault>
        ensures { answered few_items result ≡ subtask_list self.now line.now k }
    {
        let mut subtasks = Few::Zero;
        for name in line.short_list(k, 4)? {
            let s = self.symbol(name).ok_or(DomainFault::Undeclared(k))?;
            subtasks = with_subtask(subtasks, s);
        }
        Ok(subtasks)
    }

    // The task that a line declares.
    pub(crate) fn task(&self, line: &Line) -> Result<Task, DomainFault>
        ensures { answered task_entry result ≡ task_in self.now line.now }
    {
        let name = self.new_symbol(line, 2)?;
        let level = line.number(3, 0, 7)?;
        let vanishes = line.mark(4)?;
        Ok(Task {
            name,
            level,
            vanishes,
        })
    }

    // The method that a line declares.
    pub(crate) fn method(&self, line: &Line) -> Result<Method, DomainFault>
        ensures { answered method_entry result ≡ method_in self.now line.now }
    {
        let task = self.old_task(line, 2)?;
        let price = line.number(3, 0, 1000)?;
        let grade = line.number(4, 0, 9)?;
        let subtasks = self.subtask_list(line, 5)?;
        Ok(Method {
            task,
            price,
            grade,
            subtasks,
            constraints: Few::Zero,
        })
    }

    // Whether a method keeps the rules.
    pub(crate) fn ruled(&self, method: &Method) -> Result<(), DomainFault>
        ensures { result ≡ rules_for self.now method.now }
    {
        let tasks = self.tasks.as_slice();
        let subtasks = method.subtasks.as_slice();
        if !keeps_mark(tasks, method.task, subtasks) {
            return Err(DomainFault::Mark);
        }
        if !keeps_ladder(tasks, method.task, subtasks) {
            return Err(DomainFault::Ladder);
        }
        Ok(())
    }

    // How many subtasks the last method has. By `as`: there are at most four, and `try_from(..).unwrap()` is no plainer.
    fn arity(&self) -> u32
        ensures value { result ≡ arity self.now }
        ensures few { result ≤ 4 }
    {
        match self.methods.last() {
            Some(m) => m.subtasks.as_slice().len() as u32,
            None => 0,
        }
    }

    // The position and the fact of a constraint at one position.
    pub(crate) fn position(&self, line: &Line) -> Result<(usize, usize), DomainFault>
        ensures { result ≡ position_in self.now line.now }
    {
        let position = line.number(2, 0, self.arity())?;
        let fact = self.old_fact(line, 3)?;
        Ok((counted(position), fact))
    }

    // The constraint between two positions.
    pub(crate) fn between(&self, line: &Line) -> Result<Constraint, DomainFault>
        ensures { result ≡ between_in self.now line.now }
    {
        let k = self.arity();
        let from = line.number(2, 1, k)?;
        let fact = self.old_fact(line, 3)?;
        let to = line.number(4, from + 1, k)?;
        Ok(Constraint::Between {
            from: counted(from),
            fact,
            to: counted(to),
        })
    }

    // The last method takes one constraint more.
    pub(crate) fn constrain(&mut self, c: Constraint) -> Result<(), DomainFault>
        requires { roomy self.old ≡ true }
        ensures { Took result self.old self.new (plain.constrain (meant self.old) c) }
    {
        let Some(method) = self.methods.last_mut() else {
            return Ok(());
        };
        let Some(more) = method.constraints.with(c) else {
            return Err(DomainFault::Full);
        };
        method.constraints = more;
        Ok(())
    }
}

// A position as a count of subtasks. By `as`: usize has no From<u32>, and `try_from(..).unwrap()` is no plainer.
fn counted(position: u32) -> usize
    ensures { result ≡ position }
{
    position as usize
}

// The list with one subtask more, where there is room.
fn with_subtask(subtasks: Few<Subtask>, s: Subtask) -> Few<Subtask>
    ensures { few_items result ≡ with_subtask (few_items subtasks) s }
{
    subtasks.with(s).unwrap_or(subtasks)
}
