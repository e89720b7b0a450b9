//! Kinds of facts.
ghost use Rattle.std.specs.Prelude.{◌≡◌};
ghost use Rattle.facts.specs.Kinds.{kind_of};

use crate::fact_types::KINDS;

/// The kind that a number means; none where it is not from 0 to 63.
pub fn kind_of(number: i64) -> Option<u8>
    ensures { result ≡ kind_of number }
{
    let kind = u8::try_from(number).ok();
    kind.filter(|kind| *kind < KINDS)
}
