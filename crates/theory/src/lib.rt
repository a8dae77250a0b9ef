#![tactic(auto)]

ghost use Rattle.theory.specs.Rules.{RulesDecided};

// What a method is broken down into: an action or a task, by its number.
#[derive(Clone, Copy)]
pub enum Subtask {
    Primitive(usize),
    Compound(usize),
}

// A fact that a method asks for. Position 0 is the whole task, position j its j-th subtask.
#[derive(Clone, Copy)]
pub enum Constraint {
    Before { position: usize, fact: usize },
    After { position: usize, fact: usize },
    Between { from: usize, fact: usize, to: usize },
}

// The tests of the mark rule and of the ladder rule say yes exactly where the rules are kept.
pub fn rules_decided()
    ensures { RulesDecided }
{}
