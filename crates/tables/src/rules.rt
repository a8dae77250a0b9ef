ghost use Rattle.std.specs.Prelude.{◌≡◌};
ghost use Rattle.theory.specs.Lists.{all};
ghost use Rattle.theory.specs.Model.{level_of};
ghost use Rattle.theory.specs.Rules as rules;
ghost use Rattle.tables.specs.Held.{task_ranks};
ghost use Rattle.tables.specs.Ranks.{ranked};

use crate::entries::Task;
use theory::Subtask;

// The tasks that subtasks are numbers of, as the rules look at them. No Model: it is copied and has a lifetime.
#[derive(Clone, Copy)]
struct Ranks<'a> {
    tasks: &'a [Task],
}

impl Ranks<'_> {
    // Whether the subtask is a task marked v.
    fn vanishes(self, subtask: Subtask) -> bool
        ensures { result ≡ rules.vanishes (ranked self.entry) subtask }
    {
        match subtask {
            Subtask::Primitive(_) => false,
            Subtask::Compound(t) => self.tasks.get(t).is_some_and(|task| task.vanishes),
        }
    }

    fn all_vanish(self, subtasks: &[Subtask]) -> bool
        ensures { result ≡ all (rules.vanishes (ranked self.entry)) subtasks.now }
    {
        subtasks.iter().all(|s| self.vanishes(*s))
    }

    // The level of a task; 0 where there is none.
    fn level(self, t: usize) -> u32
        ensures { result ≡ level_of (ranked self.entry) t }
    {
        self.tasks.get(t).map_or(0, |task| task.level)
    }

    fn below(self, top: u32, subtask: Subtask) -> bool
        ensures { result ≡ rules.below (ranked self.entry) top subtask }
    {
        match subtask {
            Subtask::Primitive(_) => true,
            Subtask::Compound(t) => self.level(t) < top,
        }
    }

    // Where all before and after it may vanish, a subtask that is a task stands below the top.
    fn rung(self, top: u32, before: bool, subtask: Subtask, after: &[Subtask]) -> bool
        ensures { result ≡ rules.rung (ranked self.entry) top before subtask after.now }
    {
        if before && self.all_vanish(after) {
            return self.below(top, subtask);
        }
        true
    }
}

// The mark rule: a method whose subtasks may all vanish belongs to a task that may vanish.
// This and the next are public and take what callers have; to hand out Ranks would ask more of them.
pub fn keeps_mark(tasks: &[Task], owner: usize, subtasks: &[Subtask]) -> bool
    ensures { result ≡ rules.keeps_mark (task_ranks tasks.now) owner subtasks.now }
{
    let ranks = Ranks { tasks };
    if ranks.all_vanish(subtasks) {
        return ranks.vanishes(Subtask::Compound(owner));
    }
    true
}

// The ladder rule: where every other subtask may vanish, a task stands below its method's task.
pub fn keeps_ladder(tasks: &[Task], owner: usize, subtasks: &[Subtask]) -> bool
    ensures { result ≡ rules.keeps_ladder (task_ranks tasks.now) owner subtasks.now }
{
    let ranks = Ranks { tasks };
    let top = ranks.level(owner);
    let mut before = true;
    let mut rest = subtasks;
    while let Some((subtask, after)) = rest.split_first() {
        if !ranks.rung(top, before, *subtask, after) {
            return false;
        }
        before = before && ranks.vanishes(*subtask);
        rest = after;
    }
    true
}
