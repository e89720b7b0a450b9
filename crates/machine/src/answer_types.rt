//! What a post, a step and a run answer.

/// What there is too little of to take facts in.
#[derive(Clone, Copy, Debug, PartialEq, Eq)]
pub enum Shortage {
    /// There would be more than 512 goals.
    Goals,
    /// There would be more stored facts than the capacity allows.
    Facts,
    /// There would be a label above 1,000,000.
    Labels,
}

/// Why facts are not posted. A fault of one fact names it, from 1.
#[derive(Clone, Copy, Debug, PartialEq, Eq)]
pub enum PostFault {
    /// The kind of this fact is not from 0 to 63.
    Kind(usize),
    /// A word of this fact is not valid in the word system.
    Word(usize),
    /// There would be more than 512 goals.
    Goals,
    /// There would be more stored facts than the capacity allows.
    Facts,
    /// There would be a label above 1,000,000.
    Labels,
}

/// Why a step is refused. Each case has its number (docs/REFUSALS.md).
#[derive(Clone, Copy, Debug, PartialEq, Eq)]
pub enum StepFault {
    /// The caller's list is shorter than the capacity.
    List = 14,
    /// A term of the rule's body has no value.
    Body = 13,
    /// There would be more than 512 goals.
    Goals = 11,
    /// There would be more stored facts than the capacity allows.
    Facts = 10,
    /// There would be a label above 1,000,000.
    Labels = 12,
}

/// One application of a rule.
#[derive(Clone, Copy, Debug, PartialEq, Eq)]
pub struct Application {
    /// The rule's number in the set, from 1.
    pub rule: u8,
    /// The label of the fact that was tried.
    pub active: u32,
    /// How many facts each of the two all heads took; one that the rule does not have took none.
    pub took: [u32; 2],
    /// How many facts left.
    pub removed: u32,
    /// How many facts the rule gave.
    pub added: u32,
}

/// What a step answers.
#[derive(Clone, Copy, Debug, PartialEq, Eq)]
pub enum Answer {
    /// No goal is left.
    Quiet,
    /// A fact that waited is stored.
    Stored,
    /// A stored fact is to be tried.
    Woken,
    /// A goal is done with.
    Dropped,
    /// No choice of facts suits the head, and the next one is to be tried.
    Passed,
    /// A rule was applied.
    Applied(Application),
    /// Nothing was done.
    Refused(StepFault),
}

/// Why a run ended.
#[derive(Clone, Copy, Debug, PartialEq, Eq)]
pub enum End {
    /// No goal is left.
    Quiet,
    /// As many steps were taken as were allowed, and a goal is left.
    Spent,
    /// A step was refused.
    Stopped(StepFault),
}
