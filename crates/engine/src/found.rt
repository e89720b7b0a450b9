//! The rule of a head, and a choice that was found for it.
ghost use Rattle.std.specs.Prelude.{◌≡◌, ◌-◌, ◌<◌, true, length, drop};
ghost use Rattle.lists.specs.Held.{held};
ghost use Rattle.rules.specs.Rules.{rule_seen};
ghost use Rattle.rules.specs.Closed.{stand, every_word};
ghost use Rattle.rules.specs.Sets.{closed_rules};
ghost use Rattle.engine.specs.Applying.{rule_at};

use crate::search::Choice;
use facts::Words;
use rules::{ClosedSet, HeadPlace, RuleRecord};

/// The rule of the head at a place of the set.
pub(crate) fn rule_of<W: Words>(set: &ClosedSet<W>, place: HeadPlace) -> &RuleRecord
    requires { place.rule < length (closed_rules set.now) }
    ensures record { rule_seen result.now ≡ rule_at (closed_rules set.now) place }
    ensures stands { stand every_word (closed_rules set.now) ≡ true }
{
    let Some(rule) = set.rule(usize::from(place.rule)) else {
        unreachable!();
    };
    rule
}

/// A rule, and a choice that makes it ready: one label for each of its single heads.
#[derive(Clone, Copy)]
pub(crate) struct Found<'a> {
    pub(crate) rule: &'a RuleRecord,
    pub(crate) choice: &'a Choice,
    ghost whole: { length (held choice.now.labels) ≡ rule.now.singles.count },
}

impl<'a> Found<'a> {
    /// The labels of all single heads.
    pub(crate) fn chosen(self) -> &'a [u32]
        ensures labels { result.now ≡ held self.entry.choice.now.labels }
        ensures count { length result.now ≡ self.entry.rule.now.singles.count }
    {
        self.choice.labels.as_slice()
    }

    /// The labels of the `drop` heads, which are the last of the single heads.
    pub(crate) fn dropped(self) -> &'a [u32]
        ensures labels { result.now ≡ drop self.entry.rule.now.keep_count (held self.entry.choice.now.labels) }
        ensures count { length result.now ≡ self.entry.rule.now.singles.count - self.entry.rule.now.keep_count }
    {
        &self.chosen()[self.rule.keep_count..]
    }
}
