//! A job: a closed set of rules at work on a store of facts.
ghost use Rattle.std.specs.Prelude.{◌≤◌};

use crate::scratch_type::Scratch;
use crate::stack::Stack;
use rules::ClosedSet;

/// A closed set of rules, the store of the job's facts, the next label and the goals, and what an application works out.
#[derive(Drop)]
pub struct Job<W, S> {
    pub(crate) set: ClosedSet<W>,
    pub(crate) store: S,
    pub(crate) next: u32,
    pub(crate) goals: Stack,
    pub(crate) scratch: Scratch,
    ghost labels_from_one: { 1 ≤ next },
}
