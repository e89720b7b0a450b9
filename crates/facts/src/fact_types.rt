//! A fact, and the operators and relations that a word system gives a meaning.

/// How many words a fact has.
pub const WORDS: usize = 3;

/// How many kinds of facts there are: a kind is a number below this one.
pub const KINDS: u8 = 64;

/// A kind and its words, as `2,10,20,500`: a segment (2) from 10 to 20, of length 500.
#[derive(Clone, Copy, Debug, PartialEq, Eq)]
pub struct Fact {
    pub kind: u8,
    pub words: [i64; WORDS],
}

/// What joins two words of a term: `+`, `-` or `&`.
#[derive(Clone, Copy, Debug, PartialEq, Eq)]
pub enum Operator {
    Plus,
    Minus,
    Meet,
}

/// What compares two words: `eq`, `ne`, `le` or `lt`.
#[derive(Clone, Copy, Debug, PartialEq, Eq)]
pub enum Relation {
    Equal,
    Unequal,
    AtMost,
    Less,
}
