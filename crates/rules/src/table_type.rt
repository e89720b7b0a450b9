//! The rules of a set, and the one that is being written behind them.
ghost use Rattle.std.specs.Prelude.{◌≡◌, ◌<◌, ℕ, slice_get};
ghost use Rattle.rules.specs.Writing.{no_parts, rule_in};

use crate::rule_types::{RULES, RuleRecord};
use lists::FixedList;

/// The records of the list are the rules of the set; the record behind the last is the one being written, where one is.
/// Those behind it are blank, so a rule that is begun needs no record to be cleared.
#[derive(Drop)]
pub struct Table {
    pub(crate) rules: FixedList<RuleRecord, RULES>,
    ghost blank: { (i : ℕ) → rules.count < i → rule_in (slice_get rules.items i) ≡ no_parts },
}
