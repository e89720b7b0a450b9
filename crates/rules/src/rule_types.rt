//! The parts of a rule, in lists of bounded length.
ghost use Rattle.std.specs.Prelude.{◌≤◌};

use facts::{Operator, Relation, WORDS};
use lists::FixedList;

/// How many rules a set has at most.
pub const RULES: usize = 32;

/// How many letters there are: A to H.
pub const LETTERS: u8 = 8;

/// How many single heads a rule has at most.
pub const SINGLES: usize = 4;

/// How many all heads a rule has at most.
pub const ALLS: usize = 2;

/// How many `only` comparisons an all head has at most.
pub const ONLYS: usize = 2;

/// How many `when` comparisons a rule has at most.
pub const WHENS: usize = 4;

/// How many `give` facts a rule has at most.
pub const GIVES: usize = 4;

/// How many `giveall` facts a rule has at most.
pub const GIVEALLS: usize = 2;

/// An argument of a head: a letter (0 is A), a constant, or `*`, which fits every word.
#[derive(Clone, Copy, Debug, PartialEq, Eq)]
pub enum Argument {
    Letter(u8),
    Constant(i64),
    Any,
}

/// An operand of a term: a letter (0 is A), a constant, or a word of the fact taken (0 is X).
#[derive(Clone, Copy, Debug, PartialEq, Eq)]
pub enum Operand {
    Letter(u8),
    Constant(i64),
    Taken(u8),
}

/// An operand, or two joined by an operator.
#[derive(Clone, Copy, Debug, PartialEq, Eq)]
pub enum Term {
    One(Operand),
    Two(Operand, Operator, Operand),
}

/// Two terms and the relation in which they are to stand.
#[derive(Clone, Copy, Debug, PartialEq, Eq)]
pub struct Comparison {
    pub left: Term,
    pub relation: Relation,
    pub right: Term,
}

/// A head: the kind and the arguments that a fact is to fit.
#[derive(Clone, Copy, Debug, PartialEq, Eq)]
pub struct Pattern {
    pub kind: u8,
    pub args: [Argument; WORDS],
}

/// A fact of the body: its kind, and the terms that give its words.
#[derive(Clone, Copy, Debug, PartialEq, Eq)]
pub struct Template {
    pub kind: u8,
    pub terms: [Term; WORDS],
}

/// The record of an all head: whether the facts that it takes leave, what they are to fit, and its `only` comparisons.
#[derive(Clone, Copy)]
pub struct AllRecord {
    pub drops: bool,
    pub pattern: Pattern,
    pub only: FixedList<Comparison, ONLYS>,
}

/// A fact of the body for every fact that an all head took: which all head, from 1, and the fact.
#[derive(Clone, Copy, Debug, PartialEq, Eq)]
pub struct GiveAll {
    pub over: u8,
    pub each: Template,
}

/// The record of a rule. Of its single heads the first are `keep` heads, and those behind them `drop` heads.
// Not a list for each: heads are numbered through both, and a rule has room for four in all.
#[derive(Clone, Copy)]
pub struct RuleRecord {
    pub singles: FixedList<Pattern, SINGLES>,
    pub keep_count: usize,
    pub alls: FixedList<AllRecord, ALLS>,
    pub whens: FixedList<Comparison, WHENS>,
    pub gives: FixedList<Template, GIVES>,
    pub givealls: FixedList<GiveAll, GIVEALLS>,
    ghost keeps: { keep_count ≤ singles.count },
}

/// Where a head stands: the index of its rule in the set, and its place among the rule's single heads, both from 0.
#[derive(Clone, Copy, Debug, PartialEq, Eq)]
pub struct HeadPlace {
    pub rule: u8,
    pub place: u8,
}

/// Why a part is turned down. The number of each case stands beside it (docs/REFUSALS.md).
#[derive(Clone, Copy, Debug, PartialEq, Eq)]
pub enum RuleFault {
    /// The kind is not from 0 to 63.
    Kind = 1,
    /// A constant is not valid in the set's word system.
    Word = 2,
    /// A letter stands in no single head, a word of the fact taken or `*` stands where it may not.
    Letter = 3,
    /// The part is one too many.
    TooMany = 4,
    /// The rule has no `drop` head.
    NoDrop = 5,
    /// The all head that is named is not there.
    NoAllHead = 6,
    /// The part is out of order.
    OutOfOrder = 9,
}

/// The sorts of a part that stands before the body.
#[derive(Clone, Copy, Debug, PartialEq, Eq)]
pub enum HeadSort {
    Keep,
    Drop,
    KeepAll,
    DropAll,
    Only,
    When,
}

/// The sorts of a part of the body.
#[derive(Clone, Copy, Debug, PartialEq, Eq)]
pub enum BodySort {
    Give,
    GiveAll,
}

/// A part that stands before the body: a single head, an all head, or a comparison.
#[derive(Clone, Copy, Debug, PartialEq, Eq)]
pub enum HeadPart {
    Keep(Pattern),
    Drop(Pattern),
    KeepAll(Pattern),
    DropAll(Pattern),
    Only(Comparison),
    When(Comparison),
}

/// A part of the body.
#[derive(Clone, Copy, Debug, PartialEq, Eq)]
pub enum BodyPart {
    Give(Template),
    GiveAll(GiveAll),
}
