//! How the fields of a part are judged: kinds, constants, letters, and which all head is meant.
ghost use Rattle.std.specs.Prelude.{◌≡◌, pos, if◌then◌else◌, Ok, Err};
ghost use Rattle.rules.specs.declared.rule_types.RuleFault.TheVariants.{Letter, Word};
ghost use Rattle.rules.specs.Rules.{rule_seen, any, is_letter, bound};
ghost use Rattle.rules.specs.Writing.{kind_verdict, over_verdict, single_verdict, all_verdict, operand_verdict, term_verdict, pattern_verdict, comparison_verdict, template_verdict, giveall_verdict};

use crate::rule_types::{
    Argument, Comparison, GiveAll, LETTERS, Operand, Pattern, RuleFault, RuleRecord, Template, Term,
};
use facts::{WORDS, Words, kind_of};

fn has_letter(args: &[Argument], letter: u8) -> bool
    ensures { result ≡ any (is_letter letter) args.now }
{
    args.contains(&Argument::Letter(letter))
}

pub(crate) fn is_bound(rule: &RuleRecord, letter: u8) -> bool
    ensures { result ≡ bound (rule_seen rule.now) letter }
{
    let singles = rule.singles.as_slice();
    singles
        .iter()
        .any(|pattern| has_letter(&pattern.args, letter))
}

/// Which kind a number means: 1 where it is not from 0 to 63.
pub fn judge_kind(number: i64) -> Result<u8, RuleFault>
    ensures { result ≡ kind_verdict number }
{
    kind_of(number).ok_or(RuleFault::Kind)
}

pub(crate) fn judge_single<W: Words>(argument: Argument) -> Result<(), RuleFault>
    ensures { result ≡ single_verdict W.Words.system.valid argument }
{
    match argument {
        Argument::Letter(letter) if letter < LETTERS => Ok(()),
        Argument::Constant(word) if W::valid(word) => Ok(()),
        Argument::Constant(_) => Err(RuleFault::Word),
        _ => Err(RuleFault::Letter),
    }
}

fn judge_letter(rule: &RuleRecord, letter: u8) -> Result<(), RuleFault>
    ensures { result ≡ (if bound (rule_seen rule.now) letter then Ok tt else Err Letter) }
{
    if is_bound(rule, letter) {
        Ok(())
    } else {
        Err(RuleFault::Letter)
    }
}

fn judge_constant<W: Words>(word: i64) -> Result<(), RuleFault>
    ensures { result ≡ (if W.Words.system.valid word then Ok tt else Err Word) }
{
    if W::valid(word) {
        Ok(())
    } else {
        Err(RuleFault::Word)
    }
}

pub(crate) fn judge_all<W: Words>(rule: &RuleRecord, argument: Argument) -> Result<(), RuleFault>
    ensures { result ≡ all_verdict W.Words.system.valid (rule_seen rule.now) argument }
{
    match argument {
        Argument::Letter(letter) => judge_letter(rule, letter),
        Argument::Constant(word) => judge_constant::<W>(word),
        Argument::Any => Ok(()),
    }
}

/// Where a term stands: in which rule, and whether a word of the fact taken may stand there.
#[derive(Clone, Copy)]
pub(crate) struct Scope<'a> {
    pub(crate) rule: &'a RuleRecord,
    pub(crate) taken: bool,
}

impl Scope<'_> {
    fn judge_operand<W: Words>(self, operand: Operand) -> Result<(), RuleFault>
        ensures { result ≡ operand_verdict W.Words.system.valid (rule_seen self.entry.rule.now) self.entry.taken operand }
    {
        match operand {
            Operand::Letter(letter) => judge_letter(self.rule, letter),
            Operand::Constant(word) => judge_constant::<W>(word),
            Operand::Taken(place) => {
                if self.taken && usize::from(place) < WORDS {
                    Ok(())
                } else {
                    Err(RuleFault::Letter)
                }
            }
        }
    }

    pub(crate) fn judge_term<W: Words>(self, term: Term) -> Result<(), RuleFault>
        ensures { result ≡ term_verdict W.Words.system.valid (rule_seen self.entry.rule.now) self.entry.taken term }
    {
        match term {
            Term::One(operand) => self.judge_operand::<W>(operand),
            Term::Two(left, _, right) => {
                self.judge_operand::<W>(left)?;
                self.judge_operand::<W>(right)
            }
        }
    }

    pub(crate) fn judge_comparison<W: Words>(self, comparison: &Comparison) -> Result<(), RuleFault>
        ensures { result ≡ comparison_verdict (term_verdict W.Words.system.valid (rule_seen self.entry.rule.now) self.entry.taken) comparison.now }
    {
        self.judge_term::<W>(comparison.left)?;
        self.judge_term::<W>(comparison.right)
    }

    pub(crate) fn judge_template<W: Words>(self, template: &Template) -> Result<(), RuleFault>
        ensures { result ≡ template_verdict (term_verdict W.Words.system.valid (rule_seen self.entry.rule.now) self.entry.taken) template.now }
    {
        judge_kind(i64::from(template.kind))?;
        template
            .terms
            .iter()
            .try_for_each(|term| self.judge_term::<W>(*term))
    }
}

pub(crate) fn judge_single_head<W: Words>(pattern: &Pattern) -> Result<(), RuleFault>
    ensures { result ≡ pattern_verdict (single_verdict W.Words.system.valid) pattern.now }
{
    judge_kind(i64::from(pattern.kind))?;
    pattern
        .args
        .iter()
        .try_for_each(|argument| judge_single::<W>(*argument))
}

pub(crate) fn judge_all_head<W: Words>(
    rule: &RuleRecord,
    pattern: &Pattern,
) -> Result<(), RuleFault>
    ensures { result ≡ pattern_verdict (all_verdict W.Words.system.valid (rule_seen rule.now)) pattern.now }
{
    judge_kind(i64::from(pattern.kind))?;
    pattern
        .args
        .iter()
        .try_for_each(|argument| judge_all::<W>(rule, *argument))
}

pub(crate) fn judge_over(rule: &RuleRecord, number: i64) -> Result<u8, RuleFault>
    ensures { result ≡ over_verdict (rule_seen rule.now) number }
{
    let count = rule.alls.len();
    let over = u8::try_from(number).ok();
    over.filter(|over| 1 <= *over && usize::from(*over) <= count)
        .ok_or(RuleFault::NoAllHead)
}

pub(crate) fn judge_giveall<W: Words>(rule: &RuleRecord, giveall: &GiveAll) -> Result<(), RuleFault>
    ensures { result ≡ giveall_verdict W.Words.system.valid (rule_seen rule.now) giveall.now }
{
    judge_over(rule, i64::from(giveall.over))?;
    let scope = Scope { rule, taken: true };
    scope.judge_template::<W>(&giveall.each)
}
