//! Tags: words are sets of 32 tags, joined and compared as sets.
ghost use Rattle.std.specs.Prelude.{◌≡◌, cond, Some, None};
ghost use Rattle.facts.specs.Tags.{tags, is_set, joined, related, JoinsSets, ComparesSets, bits};
ghost use Rattle.std.proofs.Common.{arith, rules};
ghost use Rattle.facts.specs.Sets.{joined_lt};

use crate::fact_types::{Operator, Relation};
use crate::words_trait::Words;

/// The word system of tags: bit `b` of a word, from 0 to 31, says whether tag `b` is in the set.
#[derive(Clone, Copy)]
pub struct Tags;

// The bits of a word from 0 to 4,294,967,295, and none of any other.
fn tag_bits(word: i64) -> Option<u32>
    ensures { result ≡ cond (is_set word) (Some (bits word)) None }
{
    u32::try_from(word).ok()
}

fn joined_bits(operator: Operator, left: u32, right: u32) -> u32
    ensures { result ≡ joined operator left right }
{
    match operator {
        Operator::Plus => left | right,
        Operator::Minus => left ^ (left & right),
        Operator::Meet => left & right,
    }
}

fn related_bits(relation: Relation, left: u32, right: u32) -> bool
    ensures { result ≡ related relation left right }
{
    match relation {
        Relation::Equal => left == right,
        Relation::Unequal => left != right,
        Relation::AtMost => left & right == left,
        Relation::Less => left & right == left && left != right,
    }
}

impl Words for Tags {
    ghost system = { tags };

    ghost closed = { λ o a b w e. Prim.grind (arith, joined_lt o (bits a) (bits b)) };

    ghost valueless = { Prim.search rules };

    ghost unrelated = { Prim.search rules };

    fn valid(word: i64) -> bool {
        tag_bits(word).is_some()
    }

    fn value(operator: Operator, left: i64, right: i64) -> Option<i64>
        ensures value { result ≡ tags.value operator left right }
        ensures sets { JoinsSets operator left right result }
    {
        let joined = joined_bits(operator, tag_bits(left)?, tag_bits(right)?);
        Some(i64::from(joined))
    }

    fn holds(relation: Relation, left: i64, right: i64) -> bool
        ensures value { result ≡ tags.holds relation left right }
        ensures sets { ComparesSets relation left right result }
    {
        let (Some(left), Some(right)) = (tag_bits(left), tag_bits(right)) else {
            return false;
        };
        related_bits(relation, left, right)
    }
}
