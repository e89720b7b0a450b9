//! How a part is judged whole, and written into the record of the rule: 9, 4, then its fields from left to right.
ghost use Rattle.std.specs.Prelude.{◌≡◌, ℤ, Bool, Ok, Result, refl};
ghost use Rattle.rules.specs.declared.rule_types.HeadSort.TheVariants.{Only};
ghost use Rattle.rules.specs.declared.rule_types.HeadPart.TheVariants as head_part;
ghost use Rattle.rules.specs.declared.rule_types.BodyPart.TheVariants as body_part;
ghost use Rattle.rules.specs.declared.rule_types.RuleFault.{RuleFault};
ghost use Rattle.rules.specs.Rules.{Rule, all_seen, rule_seen};
ghost use Rattle.rules.specs.Writing.{stage, in_order, add_part, may_add, head_sort, body_sort, head_verdict, body_verdict, new_all, with_only, with_head, with_body, add_head, add_body, Wrote};

use crate::judging::{Scope, judge_all_head, judge_giveall, judge_single_head};
use crate::ordering::{PartSort, may_add};
use crate::rule_types::{
    AllRecord, BodyPart, BodySort, Comparison, HeadPart, HeadSort, Operand, Pattern, RuleFault,
    RuleRecord, Term,
};
use facts::{Relation, Words};
use lists::FixedList;

// What stands in the unused places of a list of comparisons.
pub(crate) const BLANK: Comparison = Comparison {
    left: Term::One(Operand::Constant(0)),
    relation: Relation::Equal,
    right: Term::One(Operand::Constant(0)),
};

/// A part of a rule: its sort, how its fields are judged, and the rule with the part added.
pub(crate) trait Part: Copy {
    type Sort: PartSort;

    ghost sort_of: { Self → Self.Sort };

    ghost verdict: { (ℤ → Bool) → Rule → Self → Result (Unit {0}) RuleFault };

    ghost with_part: { Self → Rule → Rule };

    ghost added: { (ℤ → Bool) → Self → Rule → Result Rule RuleFault };

    fn sort(self) -> Self::Sort
        ensures { result ≡ sort_of self };

    fn judge<W: Words>(self, rule: &RuleRecord) -> Result<(), RuleFault>
        ensures { result ≡ verdict W.Words.system.valid (rule_seen rule.now) self };

    // One part more, of a sort that may come next.
    fn push(self, rule: &mut RuleRecord)
        requires { in_order (Self.Sort.late (sort_of self) (stage (rule_seen rule.old))) (Self.Sort.full (sort_of self) (rule_seen rule.old)) ≡ Ok tt }
        ensures { rule_seen rule.new ≡ with_part self (rule_seen rule.old) };

    fn write<W: Words>(self, rule: &mut RuleRecord) -> Result<(), RuleFault>
        ensures { Wrote (added W.Words.system.valid self (rule_seen rule.old)) rule.old rule.new result }
    {
        may_add(rule, self.sort())?;
        self.judge::<W>(rule)?;
        self.push(rule);
        Ok(())
    }

    ghost adds: { (valid : ℤ → Bool) (r : Rule) (part : Self) → added valid part r ≡ add_part (in_order (Self.Sort.late (sort_of part) (stage r)) (Self.Sort.full (sort_of part) r)) (verdict valid r part) (with_part part r) };
}

// An all head without `only` comparisons.
pub(crate) fn all_head(drops: bool, pattern: Pattern) -> AllRecord
    ensures { all_seen result ≡ new_all drops pattern }
{
    AllRecord {
        drops,
        pattern,
        only: FixedList::new(BLANK),
    }
}

// One `only` more, of the last all head.
fn push_only(rule: &mut RuleRecord, comparison: Comparison)
    requires { may_add Only (rule_seen rule.old) ≡ Ok tt }
    ensures { rule_seen rule.new ≡ with_only comparison (rule_seen rule.old) }
{
    if let Some(mut all) = rule.alls.pop() {
        all.only.push(comparison);
        rule.alls.push(all);
    }
}

impl Part for HeadPart {
    type Sort = HeadSort;

    ghost sort_of = { head_sort };

    ghost verdict = { head_verdict };

    ghost with_part = { with_head };

    ghost added = { add_head };

    ghost adds = { λ valid r. elim [ head_part.Keep p ↦ refl | head_part.Drop p ↦ refl | head_part.KeepAll p ↦ refl | head_part.DropAll p ↦ refl | head_part.Only c ↦ refl | head_part.When c ↦ refl ] };

    fn sort(self) -> HeadSort {
        match self {
            HeadPart::Keep(_) => HeadSort::Keep,
            HeadPart::Drop(_) => HeadSort::Drop,
            HeadPart::KeepAll(_) => HeadSort::KeepAll,
            HeadPart::DropAll(_) => HeadSort::DropAll,
            HeadPart::Only(_) => HeadSort::Only,
            HeadPart::When(_) => HeadSort::When,
        }
    }

    fn judge<W: Words>(self, rule: &RuleRecord) -> Result<(), RuleFault> {
        match self {
            HeadPart::Keep(pattern) | HeadPart::Drop(pattern) => judge_single_head::<W>(&pattern),
            HeadPart::KeepAll(pattern) | HeadPart::DropAll(pattern) => {
                judge_all_head::<W>(rule, &pattern)
            }
            HeadPart::Only(comparison) => {
                let scope = Scope { rule, taken: true };
                scope.judge_comparison::<W>(&comparison)
            }
            HeadPart::When(comparison) => {
                let scope = Scope { rule, taken: false };
                scope.judge_comparison::<W>(&comparison)
            }
        }
    }

    fn push(self, rule: &mut RuleRecord) {
        match self {
            HeadPart::Keep(pattern) => {
                rule.singles.push(pattern);
                rule.keep_count += 1;
            }
            HeadPart::Drop(pattern) => rule.singles.push(pattern),
            HeadPart::KeepAll(pattern) => rule.alls.push(all_head(false, pattern)),
            HeadPart::DropAll(pattern) => rule.alls.push(all_head(true, pattern)),
            HeadPart::Only(comparison) => push_only(rule, comparison),
            HeadPart::When(comparison) => rule.whens.push(comparison),
        }
    }
}

impl Part for BodyPart {
    type Sort = BodySort;

    ghost sort_of = { body_sort };

    ghost verdict = { body_verdict };

    ghost with_part = { with_body };

    ghost added = { add_body };

    ghost adds = { λ valid r. elim [ body_part.Give t ↦ refl | body_part.GiveAll g ↦ refl ] };

    fn sort(self) -> BodySort {
        match self {
            BodyPart::Give(_) => BodySort::Give,
            BodyPart::GiveAll(_) => BodySort::GiveAll,
        }
    }

    fn judge<W: Words>(self, rule: &RuleRecord) -> Result<(), RuleFault> {
        match self {
            BodyPart::Give(template) => Scope { rule, taken: false }.judge_template::<W>(&template),
            BodyPart::GiveAll(giveall) => judge_giveall::<W>(rule, &giveall),
        }
    }

    fn push(self, rule: &mut RuleRecord) {
        match self {
            BodyPart::Give(template) => rule.gives.push(template),
            BodyPart::GiveAll(giveall) => rule.givealls.push(giveall),
        }
    }
}
