//! Worked examples of the two word systems. Each contract gives the answers, which the checker computes from the definitions.
ghost use Rattle.std.specs.Prelude.{◌≡◌, true, false, pos, Some, None};
ghost use Rattle.facts.specs.WordExamples.{LengthsEnd, TagsJoined, TagsCompared};

use crate::fact_types::{Operator, Relation};
use crate::length_words::Lengths;
use crate::tag_words::Tags;
use crate::words_trait::Words;

/// 2,147,483,646 + 1 is 2,147,483,647, and one more has no value.
pub fn lengths_end_at_their_range() -> (Option<i64>, Option<i64>)
    ensures answers { result ≡ (Some (pos 2147483647), None) }
    ensures computed { LengthsEnd }
{
    (
        Lengths::value(Operator::Plus, 2_147_483_646, 1),
        Lengths::value(Operator::Plus, 2_147_483_647, 1),
    )
}

/// {0, 2} and {1, 2} are {0, 1, 2} together and have 2 in common, and {0, 2} without 2 is {0}.
pub fn tags_are_joined_as_sets() -> (Option<i64>, Option<i64>, Option<i64>)
    ensures answers { result ≡ (Some (pos 7), Some (pos 4), Some (pos 1)) }
    ensures computed { TagsJoined }
{
    (
        Tags::value(Operator::Plus, 5, 6),
        Tags::value(Operator::Meet, 5, 6),
        Tags::value(Operator::Minus, 5, 4),
    )
}

/// {0, 2} is within {0, 1, 2} and not within {1, 2}.
pub fn tags_are_compared_as_sets() -> (bool, bool)
    ensures answers { result ≡ (true, false) }
    ensures computed { TagsCompared }
{
    (
        Tags::holds(Relation::AtMost, 5, 7),
        Tags::holds(Relation::AtMost, 5, 6),
    )
}

#[cfg(test)]
mod tests {
    use super::*;

    #[test]
    fn examples_answer_as_worked(rt: HostRuntime) {
        let (reached, passed) = lengths_end_at_their_range();
        assert_eq!(rt; reached, Some(2_147_483_647));
        assert_eq!(rt; passed, None);
        let (union, intersection, difference) = tags_are_joined_as_sets();
        assert_eq!(rt; union, Some(7));
        assert_eq!(rt; intersection, Some(4));
        assert_eq!(rt; difference, Some(1));
        let (subset, other) = tags_are_compared_as_sets();
        assert!(rt; subset && !other);
    }

    #[test]
    fn invalid_words_hold_in_no_relation(rt: HostRuntime) {
        assert!(rt; !Lengths::holds(Relation::Unequal, 2_147_483_648, 0));
        assert!(rt; !Tags::holds(Relation::Unequal, -1, 0));
        assert_eq!(rt; Tags::value(Operator::Plus, 4_294_967_296, 1), None);
        assert_eq!(rt; Lengths::value(Operator::Minus, -2_147_483_648, 1), None);
    }

    #[test]
    fn least_length_is_joined(rt: HostRuntime) {
        assert_eq!(rt;
            Lengths::value(Operator::Meet, -2_147_483_648, 5),
            Some(-2_147_483_648)
        );
        assert_eq!(rt;
            Lengths::value(Operator::Minus, -2_147_483_647, 1),
            Some(-2_147_483_648)
        );
    }
}
