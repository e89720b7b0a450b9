//! The goals of a job: a stack of at most 512.
ghost use Rattle.std.specs.Prelude.{◌≡◌, ◌<◌, ◌≤◌, ◌∷◌, [], List, length, reverse, Some, IfSome, true};
ghost use Rattle.machine.specs.declared.goal_types.Goal.{Goal};
ghost use Rattle.engine.specs.Goals.{top_of, below, fits_store};
ghost use Rattle.rules.specs.Rules.{all};
ghost use Rattle.lists.specs.Held.{held};

use lists::FixedList;
use machine::Goal;
use std::marker::Model;

/// How many goals there are at most.
pub(crate) const GOALS: usize = 512;

/// Goals, of which the top one is the last of the list. The kind of a fact that waits is from 0 to 63.
#[derive(Drop)]
pub(crate) struct Stack {
    goals: FixedList<Goal, GOALS>,
}

impl Model for Stack {
    ghost Value = { List Goal };

    ghost view = { λ s. reverse (held s.goals) };

    ghost invariant = { λ s. all fits_store (held s.goals) ≡ true };
}

impl Stack {
    /// No goals.
    pub(crate) fn new() -> Stack
        ensures { result ≡ [] }
    {
        Stack {
            goals: FixedList::new(Goal::Look(0)),
        }
    }

    /// How many goals there are.
    pub(crate) fn len(&self) -> usize
        ensures count { result ≡ length self.now }
        ensures bound { result ≤ 512 }
        ensures sound { all fits_store self.now ≡ true }
    {
        self.goals.len()
    }

    /// The top goal, or none.
    pub(crate) fn top(&self) -> Option<Goal>
        ensures top { result ≡ top_of self.now }
        ensures sound { IfSome result (λ goal. fits_store goal ≡ true) }
    {
        self.goals.as_slice().last().copied()
    }

    /// One goal more, on top.
    pub(crate) fn push(&mut self, goal: Goal)
        requires room { length self.old < 512 }
        requires sound { fits_store goal ≡ true }
        ensures { self.new ≡ goal ∷ self.old }
    {
        self.goals.push(goal);
    }

    /// The top goal goes, where there is one.
    pub(crate) fn pop(&mut self)
        ensures rest { self.new ≡ below self.old }
        ensures room { length self.new < 512 }
    {
        let _goal = self.goals.pop();
    }

    /// The top goal is replaced, or the goal is the only one where there is none.
    pub(crate) fn replace_top(&mut self, goal: Goal)
        requires { fits_store goal ≡ true }
        ensures { self.new ≡ goal ∷ below self.old }
    {
        self.pop();
        self.push(goal);
    }
}
