//! Where an application keeps what it works out.
use crate::body_type::Body;
use crate::stack::GOALS;
use crate::taking::AllTaken;
use facts::{Fact, WORDS};
use lists::FixedList;
use rules::ALLS;

/// What the all heads of a rule took, and what its body gave, the last time that a rule was weighed.
#[derive(Drop)]
pub(crate) struct Scratch {
    pub(crate) taken: AllTaken,
    pub(crate) body: Body,
}

impl Scratch {
    /// Nothing is taken, and nothing given.
    pub(crate) fn blank() -> Scratch {
        let fact = Fact {
            kind: 0,
            words: [0; WORDS],
        };
        Scratch {
            taken: [FixedList::new(0); ALLS],
            body: Body {
                facts: [fact; GOALS],
                count: 0,
            },
        }
    }
}
