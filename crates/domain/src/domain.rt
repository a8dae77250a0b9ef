ghost use Rattle.std.specs.Prelude.{◌≡◌, map, IfOk};
ghost use Rattle.fields.specs.Held.{name_text};
ghost use Rattle.reading.specs.Tables.{empty, fact_of, symbol_of};
ghost use Rattle.tables.specs.Held.{action_entry, task_entry, method_entry};
ghost use Rattle.domain.specs.Held.{domain_tables, Took};

use fields::{Line, Name};
use lines::LawfulTables;
use reading::{DomainFault, Kind};
use std::alloc::{AllocError, Global};
use tables::{Action, Method, Task};
use theory::Subtask;

// A domain: tables whose type carries the mark rule, the ladder rule and the ranges of every reference into them.
// The reader hands it out once it is closed. No Model: whoever holds a domain has to see the law of its tables.
#[derive(Drop)]
pub struct Domain {
    lawful: LawfulTables,
}

impl Domain {
    // A domain that declares nothing yet, with room for all that it may hold.
    pub(crate) fn new(heap: Global) -> Result<Domain, AllocError>
        ensures { IfOk result (λ d. domain_tables d ≡ empty) }
    {
        let lawful = LawfulTables::new(heap)?;
        Ok(Domain { lawful })
    }

    // Takes what a line of this kind declares.
    pub(crate) fn declare(&mut self, kind: Kind, line: &Line) -> Result<(), DomainFault>
        ensures { Took result self.old self.new kind line.now }
    {
        self.lawful.declare(kind, line)
    }

    // The names of the facts, by number.
    // Four questions with names of their own: a generic one would need a trait of four impls for these four lines.
    pub fn facts(&self) -> &[Name]
        ensures { map name_text result.now ≡ (domain_tables self.now).facts }
    {
        self.lawful.tables.facts.as_slice()
    }

    // The actions, by number.
    pub fn actions(&self) -> &[Action]
        ensures { map action_entry result.now ≡ (domain_tables self.now).actions }
    {
        self.lawful.tables.actions.as_slice()
    }

    // The tasks, by number: name, level and mark.
    pub fn tasks(&self) -> &[Task]
        ensures { map task_entry result.now ≡ (domain_tables self.now).tasks }
    {
        self.lawful.tables.tasks.as_slice()
    }

    // The methods, by number: task, price, grade, subtasks and constraints.
    pub fn methods(&self) -> &[Method]
        ensures { map method_entry result.now ≡ (domain_tables self.now).methods }
    {
        self.lawful.tables.methods.as_slice()
    }

    // The number of the fact of this name.
    pub fn find_fact(&self, name: &[u8]) -> Option<usize>
        ensures { result ≡ fact_of (domain_tables self.now) name.now }
    {
        self.lawful.tables.fact(name)
    }

    // The action or the task of this name.
    pub fn find_symbol(&self, name: &[u8]) -> Option<Subtask>
        ensures { result ≡ symbol_of (domain_tables self.now) name.now }
    {
        self.lawful.tables.symbol(name)
    }
}
