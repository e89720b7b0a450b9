//! Lengths: words are signed numbers of 32 bits, joined by exact sums.
ghost use Rattle.std.specs.Prelude.{◌≡◌, true};
ghost use Rattle.facts.specs.Lengths.{lengths, in_range, exact, within, compared, ComparesNumbers};
ghost use Rattle.std.proofs.Common.{rules};

use crate::fact_types::{Operator, Relation};
use crate::words_trait::Words;

/// The word system of lengths along the line.
#[derive(Clone, Copy)]
pub struct Lengths;

fn in_range(word: i64) -> bool
    ensures { result ≡ in_range word }
{
    i32::try_from(word).is_ok()
}

fn exact_result(operator: Operator, left: i64, right: i64) -> i64
    requires { (in_range left ≡ true) × (in_range right ≡ true) }
    ensures { result ≡ exact operator left right }
{
    match operator {
        Operator::Plus => left + right,
        Operator::Minus => left - right,
        Operator::Meet => left.min(right),
    }
}

fn within_range(number: i64) -> Option<i64>
    ensures { result ≡ within number }
{
    in_range(number).then_some(number)
}

fn compare(relation: Relation, left: i64, right: i64) -> bool
    ensures { result ≡ compared relation left right }
{
    match relation {
        Relation::Equal => left == right,
        Relation::Unequal => left != right,
        Relation::AtMost => left <= right,
        Relation::Less => left < right,
    }
}

impl Words for Lengths {
    ghost system = { lengths };

    ghost closed = { Prim.search rules };

    ghost valueless = { Prim.search rules };

    ghost unrelated = { Prim.search rules };

    fn valid(word: i64) -> bool {
        in_range(word)
    }

    fn value(operator: Operator, left: i64, right: i64) -> Option<i64> {
        if in_range(left) && in_range(right) {
            within_range(exact_result(operator, left, right))
        } else {
            None
        }
    }

    fn holds(relation: Relation, left: i64, right: i64) -> bool
        ensures value { result ≡ lengths.holds relation left right }
        ensures numbers { ComparesNumbers relation left right result }
    {
        in_range(left) && in_range(right) && compare(relation, left, right)
    }
}
