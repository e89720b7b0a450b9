//! The facts that a rule gives in an application.
use crate::stack::GOALS;
use facts::Fact;

/// The facts that a rule gives: all are counted, and the first 512 are kept, since no more can ever be brought in.
// By hand: no `FixedList`, which counts only what it keeps.
#[derive(Clone, Copy)]
pub(crate) struct Body {
    pub(crate) facts: [Fact; GOALS],
    pub(crate) count: usize,
}
