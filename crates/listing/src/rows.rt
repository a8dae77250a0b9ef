ghost use Rattle.std.specs.Prelude.{◌≡◌, ℕ};
ghost use Rattle.fields.specs.Held.{name_text};
ghost use Rattle.fields.specs.Text.{Bytes};
ghost use Rattle.reading.specs.Tables.{Tables};
ghost use Rattle.tables.specs.Held.{action_entry, task_entry, method_entry};
ghost use Rattle.listing.specs.Listing.{fact_row, action_row, task_row, method_row, method_rows, mark_text, constraint_row};
ghost use Rattle.listing.specs.Texts.{Makes, listed};

use domain::Domain;
use fields::Name;
use std::alloc::{AllocError, Global};
use tables::{Action, Method, Task};
use theory::{Constraint, Subtask};

// What lists a domain: the memory for the rows, and the domain, whose names they show.
// No Model: it is copied and has a lifetime.
#[derive(Clone, Copy)]
pub(crate) struct Lister<'a> {
    pub(crate) heap: Global,
    pub(crate) domain: &'a Domain,
}

// An entry of one of a domain's tables.
// Its rows are Strings and no displays: two of the five put names together in memory, and so all are made in the same way.
pub(crate) trait Entry {
    // The rows of the entry with this number.
    ghost text: { Tables → ℕ → Self → Bytes };

    fn rows(&self, lister: Lister<'_>, number: usize) -> Result<String, AllocError>
        ensures { Makes result (text (listed lister.entry) number self.now) };
}

impl Entry for Name {
    ghost text = { λ t i name. fact_row i (name_text name) };

    fn rows(&self, lister: Lister<'_>, number: usize) -> Result<String, AllocError> {
        let name = self.as_str();
        format!(in lister.heap; "F\t{number}\t{name}\n")
    }
}

impl Entry for Action {
    ghost text = { λ t i action. action_row t i (action_entry action) };

    fn rows(&self, lister: Lister<'_>, number: usize) -> Result<String, AllocError> {
        let name = self.name.as_str();
        let needs = lister.fact_list(self.needs)?;
        let adds = lister.fact_list(self.adds)?;
        let deletes = lister.fact_list(self.deletes)?;
        format!(in lister.heap; "A\t{number}\t{name}\t{needs}\t{adds}\t{deletes}\n")
    }
}

impl Entry for Task {
    ghost text = { λ t i task. task_row i (task_entry task) };

    fn rows(&self, lister: Lister<'_>, number: usize) -> Result<String, AllocError> {
        let name = self.name.as_str();
        let level = self.level;
        let mark = mark(self.vanishes);
        format!(in lister.heap; "T\t{number}\t{name}\t{level}\t{mark}\n")
    }
}

// One `if`: a type with a Display for two letters would be no plainer.
fn mark(vanishes: bool) -> &'static str
    ensures { result.now ≡ mark_text vanishes }
{
    if vanishes { "v" } else { "n" }
}

impl Entry for Method {
    ghost text = { λ t i method. method_rows t i (method_entry method) };

    // The method's row, and those of its constraints.
    fn rows(&self, lister: Lister<'_>, number: usize) -> Result<String, AllocError> {
        let mut text = lister.method_row(number, self)?;
        for constraint in self.constraints.as_slice() {
            let row = lister.constraint_row(number, *constraint)?;
            text.push_str(row.as_str())?;
        }
        Ok(text)
    }
}

impl Lister<'_> {
    // A method's row, without its constraints.
    fn method_row(self, number: usize, method: &Method) -> Result<String, AllocError>
        ensures { Makes result
            (method_row (listed self.entry) number (method_entry method.now)) }
    {
        let task = self.subtask_name(Subtask::Compound(method.task));
        let price = method.price;
        let grade = method.grade;
        let subtasks = self.subtask_list(method.subtasks.as_slice())?;
        format!(in self.heap; "M\t{number}\t{task}\t{price}\t{grade}\t{subtasks}\n")
    }

    // The row of a constraint, with its method's number.
    fn constraint_row(self, method: usize, constraint: Constraint) -> Result<String, AllocError>
        ensures { Makes result (constraint_row (listed self.entry) method constraint) }
    {
        // three arms: the letter is part of a format, and a format is a literal
        match constraint {
            Constraint::Before { position, fact } => {
                let fact = self.fact_name(fact);
                format!(in self.heap; "B\t{method}\t{position}\t{fact}\n")
            }
            Constraint::After { position, fact } => {
                let fact = self.fact_name(fact);
                format!(in self.heap; "P\t{method}\t{position}\t{fact}\n")
            }
            Constraint::Between { from, fact, to } => {
                let fact = self.fact_name(fact);
                format!(in self.heap; "K\t{method}\t{from}\t{fact}\t{to}\n")
            }
        }
    }
}
