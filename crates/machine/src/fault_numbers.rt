//! The number of each fault.
ghost use Rattle.std.specs.Prelude.{◌≡◌};
ghost use Rattle.machine.specs.Faults.{post_fault_number, named_fact, step_fault_number, short_post, short_step};

use crate::answer_types::{PostFault, Shortage, StepFault};

impl PostFault {
    /// The number by which a fault is named.
    pub fn number(self) -> u8
        ensures { result ≡ post_fault_number self }
    {
        // A match, since an enum with data has no number to cast to.
        match self {
            PostFault::Kind(_) => 1,
            PostFault::Word(_) => 2,
            PostFault::Goals => 11,
            PostFault::Facts => 10,
            PostFault::Labels => 12,
        }
    }

    /// The fact that the fault names, from 1, or 0.
    // No Option: 0 for none is what is promised to those who print it.
    pub fn named_fact(self) -> usize
        ensures { result ≡ named_fact self }
    {
        match self {
            PostFault::Kind(fact) | PostFault::Word(fact) => fact,
            PostFault::Goals | PostFault::Facts | PostFault::Labels => 0,
        }
    }
}

impl StepFault {
    /// The number by which a fault is named.
    // A method: `u8::from(fault)` would not say that it is the number of the fault.
    pub fn number(self) -> u8
        ensures { result ≡ step_fault_number self }
    {
        self as u8
    }
}

// One impl for each fault, since each names cases of its own enum: a macro or a trait for the two would be longer.
impl From<Shortage> for PostFault {
    ghost from_gives = { λ s e. e ≡ short_post s };

    fn from(short: Shortage) -> PostFault {
        match short {
            Shortage::Goals => PostFault::Goals,
            Shortage::Facts => PostFault::Facts,
            Shortage::Labels => PostFault::Labels,
        }
    }
}

impl From<Shortage> for StepFault {
    ghost from_gives = { λ s e. e ≡ short_step s };

    fn from(short: Shortage) -> StepFault {
        match short {
            Shortage::Goals => StepFault::Goals,
            Shortage::Facts => StepFault::Facts,
            Shortage::Labels => StepFault::Labels,
        }
    }
}
