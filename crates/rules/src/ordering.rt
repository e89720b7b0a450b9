//! Which part may come next in a rule: the order of parts, and how many there may be of each.
ghost use Rattle.std.specs.Prelude.{◌≡◌, ℕ, Bool, length};
ghost use Rattle.rules.specs.Rules.{Rule, rule_seen};
ghost use Rattle.rules.specs.Writing.{last_number, stage, late, late_body, last_only, full, full_body, in_order};

use crate::rule_types::{BodySort, HeadSort, ONLYS, RuleFault, RuleRecord};

/// The last part of a rule, in the order in which parts stand. An `only` stands with its all head.
#[derive(Clone, Copy, PartialEq, Eq, PartialOrd, Ord)]
pub(crate) enum LastPart {
    Nothing,
    Keep,
    Drop,
    AllHead,
    When,
    Give,
    GiveAll,
}

/// A sort of part: behind which parts it may not stand, and where a rule has as many of it as it may.
pub(crate) trait PartSort: Copy {
    ghost late: { Self → ℕ → Bool };

    ghost full: { Self → Rule → Bool };

    fn is_late(self, last: LastPart) -> bool
        ensures { result ≡ late self (last_number last) };

    fn is_full(self, rule: &RuleRecord) -> bool
        ensures { result ≡ full self (rule_seen rule.now) };
}

impl PartSort for HeadSort {
    ghost late = { late };

    ghost full = { full };

    fn is_late(self, last: LastPart) -> bool {
        match self {
            HeadSort::Keep => last > LastPart::Keep,
            HeadSort::Drop => last > LastPart::Drop,
            HeadSort::KeepAll | HeadSort::DropAll => last > LastPart::AllHead,
            HeadSort::Only => last != LastPart::AllHead,
            HeadSort::When => last > LastPart::When,
        }
    }

    fn is_full(self, rule: &RuleRecord) -> bool {
        match self {
            HeadSort::Keep | HeadSort::Drop => !rule.singles.has_room(),
            HeadSort::KeepAll | HeadSort::DropAll => !rule.alls.has_room(),
            HeadSort::Only => last_only_count(rule) >= ONLYS,
            HeadSort::When => !rule.whens.has_room(),
        }
    }
}

impl PartSort for BodySort {
    ghost late = { late_body };

    ghost full = { full_body };

    fn is_late(self, last: LastPart) -> bool {
        match self {
            BodySort::Give => last > LastPart::Give,
            BodySort::GiveAll => last > LastPart::GiveAll,
        }
    }

    fn is_full(self, rule: &RuleRecord) -> bool {
        match self {
            BodySort::Give => !rule.gives.has_room(),
            BodySort::GiveAll => !rule.givealls.has_room(),
        }
    }
}

fn last_of(rule: &RuleRecord) -> LastPart
    ensures { last_number result ≡ stage (rule_seen rule.now) }
{
    if rule.givealls.len() > 0 {
        LastPart::GiveAll
    } else if rule.gives.len() > 0 {
        LastPart::Give
    } else if rule.whens.len() > 0 {
        LastPart::When
    } else if rule.alls.len() > 0 {
        LastPart::AllHead
    } else if rule.singles.len() > rule.keep_count {
        LastPart::Drop
    } else if rule.keep_count > 0 {
        LastPart::Keep
    } else {
        LastPart::Nothing
    }
}

// How many `only` comparisons the last all head has.
fn last_only_count(rule: &RuleRecord) -> usize
    ensures { result ≡ length (last_only (rule_seen rule.now).alls) }
{
    match rule.alls.as_slice() {
        [] => 0,
        [.., last] => last.only.len(),
    }
}

// Whether a part of this sort may come next.
pub(crate) fn may_add<P: PartSort>(rule: &RuleRecord, sort: P) -> Result<(), RuleFault>
    ensures { result ≡ in_order (P.PartSort.late sort (stage (rule_seen rule.now))) (P.PartSort.full sort (rule_seen rule.now)) }
{
    if sort.is_late(last_of(rule)) {
        Err(RuleFault::OutOfOrder)
    } else if sort.is_full(rule) {
        Err(RuleFault::TooMany)
    } else {
        Ok(())
    }
}
