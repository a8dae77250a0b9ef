ghost use Rattle.std.specs.Prelude.{◌≡◌, ℕ, List};
ghost use Rattle.fields.specs.Held.{name_text};

use crate::few::Few;
use fields::Name;
use theory::{Constraint, Subtask};

// The needed, added and deleted facts are sets: bit f is fact f. Masks and no collections, as states are.
// No Model of an entry, here and below: its fields are public, and callers read them.
#[derive(Clone, Copy)]
pub struct Action {
    pub name: Name,
    pub needs: u64,
    pub adds: u64,
    pub deletes: u64,
}

// The mark v says that the task may vanish.
#[derive(Clone, Copy)]
pub struct Task {
    pub name: Name,
    pub level: u32,
    pub vanishes: bool,
}

// A way to break a task down, at a price, with a grade of licence.
#[derive(Clone, Copy)]
pub struct Method {
    pub task: usize,
    pub price: u32,
    pub grade: u32,
    pub subtasks: Few<Subtask>,
    pub constraints: Few<Constraint>,
}

// What has a name.
pub trait Named {
    ghost text: { Self → List ℕ };

    fn name(&self) -> &Name
        ensures { name_text result.now ≡ text self.now };
}

impl Named for Name {
    ghost text = { name_text };

    fn name(&self) -> &Name {
        self
    }
}

impl Named for Action {
    ghost text = { λ a. name_text a.name };

    fn name(&self) -> &Name {
        &self.name
    }
}

impl Named for Task {
    ghost text = { λ t. name_text t.name };

    fn name(&self) -> &Name {
        &self.name
    }
}
