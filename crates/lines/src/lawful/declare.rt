ghost use Rattle.std.specs.Prelude.{◌≡◌, ◌<◌, IfOk};
ghost use Rattle.reading.specs.Lines as plain;
ghost use Rattle.reading.specs.Tables.{empty};
ghost use Rattle.reading.specs.declared.kinds.Kind.TheVariants as kind;
ghost use Rattle.fields.specs.Held.{answered};
ghost use Rattle.tables.specs.Held.{action_entry};
ghost use Rattle.lines.specs.Closes.{meant};
ghost use Rattle.lines.specs.Entries.{action_in};
ghost use Rattle.lines.specs.Took.{Declares, fact_set};

use crate::filled::{MOST_ACTIONS, MOST_FACTS, MOST_METHODS, MOST_TASKS, Tables};
use crate::lawful::LawfulTables;
use crate::names::room;
use fields::Line;
use reading::{DomainFault, Kind};
use std::alloc::{AllocError, Global};
use tables::Action;
use theory::Constraint;

impl LawfulTables {
    // Empty tables, with room for all that a domain may hold.
    pub fn new(heap: Global) -> Result<LawfulTables, AllocError>
        ensures { IfOk result (λ d. meant d.tables ≡ empty) }
    {
        let tables = Tables::new(heap)?;
        Ok(LawfulTables { tables })
    }

    // Takes what a line of this kind declares.
    pub fn declare(&mut self, kind: Kind, line: &Line) -> Result<(), DomainFault>
        ensures { Declares result self.old.tables self.new.tables kind line.now }
    {
        // a match and no table of functions: the kinds are these eight for good
        match kind {
            Kind::Fact => self.fact_line(line),
            Kind::Action => self.action_line(line),
            Kind::Task => self.task_line(line),
            Kind::Method => self.method_line(line),
            Kind::Before => self.before_line(line),
            Kind::After => self.after_line(line),
            Kind::Between => self.between_line(line),
            Kind::Closing => Ok(()),
        }
    }

    // Each kind of entry has its own line: fields, room, then the checks of its own, and only then the entry at the end.
    fn fact_line(&mut self, line: &Line) -> Result<(), DomainFault>
        ensures { Declares result self.old.tables self.new.tables kind.Fact line.now }
    {
        let name = self.tables.new_fact(line, 2)?;
        room(self.tables.facts.as_slice(), MOST_FACTS)?;
        self.tables.facts.push_reserved(name);
        Ok(())
    }

    // The set of the facts that a field lists.
    // A loop of its own beside that for subtasks: one for both would take each step's own condition as an argument.
    fn fact_set(&self, line: &Line, k: u8) -> Result<u64, DomainFault>
        ensures { result ≡ fact_set self.now.tables line.now k }
    {
        let mut set = 0;
        for name in line.list(k)? {
            let f = self.tables.fact(name).ok_or(DomainFault::Undeclared(k))?;
            set = with_fact(set, f);
        }
        Ok(set)
    }

    // The action that a line declares.
    fn action(&self, line: &Line) -> Result<Action, DomainFault>
        ensures { answered action_entry result ≡ action_in self.now.tables line.now }
    {
        let name = self.tables.new_symbol(line, 2)?;
        let needs = self.fact_set(line, 3)?;
        let adds = self.fact_set(line, 4)?;
        let deletes = self.fact_set(line, 5)?;
        Ok(Action {
            name,
            needs,
            adds,
            deletes,
        })
    }

    fn action_line(&mut self, line: &Line) -> Result<(), DomainFault>
        ensures { Declares result self.old.tables self.new.tables kind.Action line.now }
    {
        let action = self.action(line)?;
        room(self.tables.actions.as_slice(), MOST_ACTIONS)?;
        if action.adds & action.deletes != 0 {
            return Err(DomainFault::Clash);
        }
        self.tables.actions.push_reserved(action);
        Ok(())
    }

    fn task_line(&mut self, line: &Line) -> Result<(), DomainFault>
        ensures { Declares result self.old.tables self.new.tables kind.Task line.now }
    {
        let task = self.tables.task(line)?;
        room(self.tables.tasks.as_slice(), MOST_TASKS)?;
        self.tables.tasks.push_reserved(task);
        Ok(())
    }

    fn method_line(&mut self, line: &Line) -> Result<(), DomainFault>
        ensures { Declares result self.old.tables self.new.tables kind.Method line.now }
    {
        let method = self.tables.method(line)?;
        room(self.tables.methods.as_slice(), MOST_METHODS)?;
        self.tables.ruled(&method)?;
        self.tables.methods.push_reserved(method);
        Ok(())
    }

    // Two functions of two lines each: one that takes what makes the constraint would need a contract about that closure.
    fn before_line(&mut self, line: &Line) -> Result<(), DomainFault>
        ensures { Declares result self.old.tables self.new.tables kind.Before line.now }
    {
        let (position, fact) = self.tables.position(line)?;
        self.tables.constrain(Constraint::Before { position, fact })
    }

    fn after_line(&mut self, line: &Line) -> Result<(), DomainFault>
        ensures { Declares result self.old.tables self.new.tables kind.After line.now }
    {
        let (position, fact) = self.tables.position(line)?;
        self.tables.constrain(Constraint::After { position, fact })
    }

    fn between_line(&mut self, line: &Line) -> Result<(), DomainFault>
        ensures { Declares result self.old.tables self.new.tables kind.Between line.now }
    {
        let constraint = self.tables.between(line)?;
        self.tables.constrain(constraint)
    }
}

// The set with one fact more.
fn with_fact(set: u64, f: usize) -> u64
    requires { f < 64 }
    ensures { result ≡ plain.with_fact set f }
{
    set | (1 << f)
}
