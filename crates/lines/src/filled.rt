use fields::Name;
use tables::{Action, Method, Task};

// How many facts, actions, tasks and methods a domain may hold.
pub(crate) const MOST_FACTS: usize = 64;

pub(crate) const MOST_ACTIONS: usize = 64;

pub(crate) const MOST_TASKS: usize = 48;

pub(crate) const MOST_METHODS: usize = 128;

// The tables as the lines fill them; each kind is numbered from 0 by its place.
// Entries refer to one another by these numbers and not by pointers: the format gives them, and they are printed.
// No Model: contracts speak of the room too that the vectors have.
#[derive(Drop)]
pub struct Tables {
    pub facts: Vec<Name>,
    pub actions: Vec<Action>,
    pub tasks: Vec<Task>,
    pub methods: Vec<Method>,
}
