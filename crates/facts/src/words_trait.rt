//! The interface of a word system, and its laws.
ghost use Rattle.std.specs.Prelude.{◌≡◌, true, ◌&&◌};
ghost use Rattle.facts.specs.System.{System, ValuesAreValid, InvalidHasNoValue, InvalidNeverHolds, Lawful};

use crate::fact_types::{Operator, Relation};

/// A word system: which words it has, what joins them and how they compare.
/// Each function answers from its arguments alone, so none takes a `self`.
pub trait Words {
    /// What the three functions answer.
    ghost system: { System };

    /// Whether the word belongs to the system.
    fn valid(word: i64) -> bool
        ensures { result ≡ system.valid word };

    /// What the operator makes of two words, or no value.
    fn value(operator: Operator, left: i64, right: i64) -> Option<i64>
        ensures { result ≡ system.value operator left right };

    /// Whether two words stand in the relation.
    fn holds(relation: Relation, left: i64, right: i64) -> bool
        ensures { result ≡ system.holds relation left right };

    ghost closed: { ValuesAreValid system };

    ghost valueless: { InvalidHasNoValue system };

    ghost unrelated: { InvalidNeverHolds system };
}

fn both_valid<W: Words>(left: i64, right: i64) -> bool
    ensures { result ≡ (W.Words.system.valid left && W.Words.system.valid right) }
{
    W::valid(left) && W::valid(right)
}

/// Tries the laws of a word system on two words: a value is valid, and an invalid word has no value and holds in no relation.
/// The answer is always yes, since the laws hold of every word system.
pub fn laws_hold<W: Words>(operator: Operator, relation: Relation, left: i64, right: i64) -> bool
    ensures tried { result ≡ true }
    ensures lawful { Lawful W.Words.system }
{
    match W::value(operator, left, right) {
        Some(value) => both_valid::<W>(left, right) && W::valid(value),
        None => both_valid::<W>(left, right) || !W::holds(relation, left, right),
    }
}
