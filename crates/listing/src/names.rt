ghost use Rattle.std.specs.Prelude.{◌≡◌, ◌==◌, [], map, slice_index_or, OnOk};
ghost use Rattle.std.specs.Int.{bit_at};
ghost use Rattle.listing.specs.Listing.{fact_name, subtask_name, fact_names, subtask_list};
ghost use Rattle.listing.specs.Texts.{Makes, Continues, continued, listed};

use crate::rows::Lister;
use std::alloc::AllocError;
use tables::Named;
use theory::Subtask;

impl<'a> Lister<'a> {
    // The name of a fact.
    pub(crate) fn fact_name(self, fact: usize) -> &'a str
        ensures { result.now ≡ fact_name (listed self.entry) fact }
    {
        name_of(self.domain.facts(), fact)
    }

    // The name of an action or a task.
    pub(crate) fn subtask_name(self, subtask: Subtask) -> &'a str
        ensures { result.now ≡ subtask_name (listed self.entry) subtask }
    {
        match subtask {
            Subtask::Primitive(a) => name_of(self.domain.actions(), a),
            Subtask::Compound(t) => name_of(self.domain.tasks(), t),
        }
    }

    // The names of the facts in a set, in ascending order of their numbers.
    pub(crate) fn fact_list(self, set: u64) -> Result<String, AllocError>
        ensures { Makes result (fact_names (listed self.entry) set) }
    {
        let mut names = None;
        for (fact, name) in self.domain.facts().iter().enumerate() {
            if holds(set, fact) {
                self.push_name(&mut names, name.as_str())?;
            }
        }
        self.name_list(names)
    }

    // The names of subtasks, in their order.
    pub(crate) fn subtask_list(self, subtasks: &[Subtask]) -> Result<String, AllocError>
        ensures { Makes result (subtask_list (listed self.entry) subtasks.now) }
    {
        let mut names = None;
        for subtask in subtasks {
            self.push_name(&mut names, self.subtask_name(*subtask))?;
        }
        self.name_list(names)
    }

    // One name more behind the names so far, with a comma between. They are written one after the other into one text: to
    // collect and then join them takes a quarter more time.
    #[tactic(auto, using(crate::proofs::Texts::name_first))]
    fn push_name(self, names: &mut Option<String>, name: &str) -> Result<(), AllocError>
        ensures { OnOk result (Continues names.new names.old name.now) }
    {
        match names {
            Some(text) => {
                text.push(',')?;
                text.push_str(name)
            }
            None => {
                let mut text = String::new(self.heap);
                text.push_str(name)?;
                *names = Some(text);
                Ok(())
            }
        }
    }

    // The names, or a hyphen where there are none.
    fn name_list(self, names: Option<String>) -> Result<String, AllocError>
        ensures { Makes result (continued names []) }
    {
        match names {
            Some(text) => Ok(text),
            None => "-".to_string(self.heap),
        }
    }
}

// The name of the entry with this number; empty where there is none.
fn name_of<T: Named>(entries: &[T], number: usize) -> &str
    ensures { result.now ≡ slice_index_or (map T.text entries.now) number [] }
{
    entries
        .get(number)
        .map_or("", |entry| entry.name().as_str())
}

// Whether a fact is in a set, whose bit f tells of fact f.
fn holds(set: u64, fact: usize) -> bool
    ensures { result ≡ (bit_at set fact == 1) }
{
    fact < 64 && set >> fact & 1 == 1
}
