//! The words that a row of rules begins with.
use rules::{BodySort, HeadSort};

/// What the first field of a row says: a rule begins, a part before the body follows, or a part of the body.
#[derive(Clone, Copy, Debug, PartialEq, Eq)]
pub enum RowWord {
    Rule,
    Head(HeadSort),
    Body(BodySort),
}
