//! What is done with a job, and what it replies.
use facts::Fact;
use machine::{Answer, End, PostFault};

/// Something that is done with a job: facts are posted, a step is taken, so many steps are allowed, or a label is read.
#[derive(Clone, Copy, Debug, PartialEq, Eq)]
pub enum Act<'a> {
    Post(&'a [Fact]),
    Step,
    Run(u32),
    Read(u32),
}

/// What a job replies to an act.
#[derive(Clone, Copy, Debug, PartialEq, Eq)]
pub enum Reply {
    /// Whether the facts were posted.
    Posted(Result<(), PostFault>),
    /// What the step answered.
    Stepped(Answer),
    /// Why the run ended, how many steps it took, and how many of them applied a rule.
    Ran(End, u32, u32),
    /// The fact of the label, how many facts are stored, and how many goals there are.
    Read(Option<Fact>, usize, usize),
}
