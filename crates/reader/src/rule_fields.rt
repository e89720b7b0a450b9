//! The fields of a row of rules: which word, number, argument, term or relation stands there, and how the rule set judges it.
ghost use Rattle.std.specs.Prelude.{◌≡◌, ℕ, Bool, List, Ok, Option, Result};
ghost use Rattle.rules.specs.declared.rule_types.RuleFault.{RuleFault};
ghost use Rattle.rules.specs.declared.rule_types.Term.{Term};
ghost use Rattle.rules.specs.Writing.{kind_verdict, over_verdict, term_verdict};
ghost use Rattle.rules.specs.Sets.{head_draft, body_draft};
ghost use Rattle.rows.specs.Numbers.{number};
ghost use Rattle.terms.specs.Terms.{term, argument};
ghost use Rattle.rows.specs.Refusals.{refused_as};
ghost use Rattle.rules_file.specs.RuleRefusals.{row_refusal};
ghost use Rattle.rules_file.specs.RuleRows.{word, relation, ruled, judged, passing, argument_of, mark_verdict};
ghost use Rattle.rows.specs.Fields.{readable};
ghost use Rattle.reader.specs.RuleScan.{argument_verdict};

use crate::row_types::Cell;
use crate::spelling::relation_written;
use facts::{Relation, Words};
use rows::{FieldFault, Place, read_number, readable};
use rules::{Argument, HeadSort, Operand, RuleBody, RuleFault, RuleHead, Term, judge_kind};
use rules_file::RowFault;
use terms::{Mark, read_argument, read_term};

// A verdict of the rule set, with the place of what it judges.
pub(crate) fn placed<T>(verdict: Result<T, RuleFault>, place: Place) -> Result<T, RowFault>
    ensures { refused_as row_refusal result ≡ ruled place.row place.field verdict }
{
    verdict.map_err(|fault| RowFault::Set(fault, place))
}

// A word of the fact taken is no argument of a head.
fn argument_of(mark: Mark) -> Result<Argument, RuleFault>
    ensures { result ≡ argument_of mark }
{
    match mark {
        Mark::Star => Ok(Argument::Any),
        Mark::Operand(Operand::Letter(letter)) => Ok(Argument::Letter(letter)),
        Mark::Operand(Operand::Constant(word)) => Ok(Argument::Constant(word)),
        Mark::Operand(Operand::Taken(_)) => Err(RuleFault::Letter),
    }
}

/// A rule that is being written, for what it says of a term.
pub(crate) trait JudgesTerms {
    ghost says: { Self → Bool → Term → Result (Unit {0}) RuleFault };

    fn judge(&self, taken: bool, term: Term) -> Result<(), RuleFault>
        ensures { result ≡ says self.now taken term };
}

impl<W: Words> JudgesTerms for RuleHead<W> {
    ghost says = { λ s taken t. term_verdict W.Words.system.valid (head_draft s) taken t };

    fn judge(&self, taken: bool, term: Term) -> Result<(), RuleFault> {
        self.judge_term(taken, term)
    }
}

impl<W: Words> JudgesTerms for RuleBody<W> {
    ghost says = { λ s taken t. term_verdict W.Words.system.valid (body_draft s) taken t };

    fn judge(&self, taken: bool, term: Term) -> Result<(), RuleFault> {
        self.judge_term(taken, term)
    }
}

/// What judges the fields of a part alike: how the text of one is read, and what the rule being written makes of it.
pub(crate) trait Judges {
    type Said;

    type Judged: Copy;

    ghost reads: { List ℕ → Option Self.Said };

    ghost verdict: { Self → Self.Said → Result Self.Judged RuleFault };

    fn judge(&self, cell: Cell<'_>) -> Result<Self::Judged, RowFault>
        ensures { refused_as row_refusal result ≡ judged cell.entry.place.row cell.entry.place.field (verdict self.now) (reads cell.entry.text.now) };
}

/// The arguments of a head of this sort.
#[derive(Clone, Copy)]
pub(crate) struct Arguments<'a, W> {
    pub rule: &'a RuleHead<W>,
    pub sort: HeadSort,
}

impl<W: Words> Arguments<'_, W> {
    fn judge_argument(&self, argument: Argument) -> Result<(), RuleFault>
        ensures { result ≡ argument_verdict W.Words.system.valid (head_draft self.now.rule.now) self.now.sort argument }
    {
        match self.sort {
            HeadSort::Keep | HeadSort::Drop => self.rule.judge_single(argument),
            _ => self.rule.judge_all(argument),
        }
    }

    fn judge_mark(&self, mark: Mark) -> Result<Argument, RuleFault>
        ensures { result ≡ mark_verdict (argument_verdict W.Words.system.valid (head_draft self.now.rule.now) self.now.sort) mark }
    {
        let argument = argument_of(mark)?;
        self.judge_argument(argument)?;
        Ok(argument)
    }
}

impl<W: Words> Judges for Arguments<'_, W> {
    type Said = Mark;

    type Judged = Argument;

    ghost reads = { argument };

    ghost verdict = { λ s m. mark_verdict (argument_verdict W.Words.system.valid (head_draft s.rule.now) s.sort) m };

    fn judge(&self, cell: Cell<'_>) -> Result<Argument, RowFault> {
        let mark = readable(read_argument(cell.text), cell.place)?;
        placed(self.judge_mark(mark), cell.place)
    }
}

/// The terms of a part, which may name words of the fact taken or may not.
#[derive(Clone, Copy)]
pub(crate) struct Terms<'a, J> {
    pub rule: &'a J,
    pub taken: bool,
}

impl<J: JudgesTerms> Judges for Terms<'_, J> {
    type Said = Term;

    type Judged = Term;

    ghost reads = { term };

    ghost verdict = { λ s t. passing (J.JudgesTerms.says s.rule.now s.taken) t };

    fn judge(&self, cell: Cell<'_>) -> Result<Term, RowFault> {
        let term = readable(read_term(cell.text), cell.place)?;
        placed(self.rule.judge(self.taken, term), cell.place)?;
        Ok(term)
    }
}

impl<'a> Cell<'a> {
    // The relation that stands in the field.
    pub(crate) fn relation(self) -> Result<Relation, RowFault>
        ensures { refused_as row_refusal result ≡ judged self.entry.place.row self.entry.place.field (λ p. Ok p) (relation self.entry.text.now) }
    {
        Ok(readable(relation_written(self.text), self.place)?)
    }

    fn number(self) -> Result<i64, FieldFault>
        ensures { result ≡ readable self.entry.place (number self.entry.text.now) }
    {
        readable(read_number(self.text), self.place)
    }

    pub(crate) fn kind(self) -> Result<u8, RowFault>
        ensures { refused_as row_refusal result ≡ judged self.entry.place.row self.entry.place.field kind_verdict (number self.entry.text.now) }
    {
        let number = self.number()?;
        placed(judge_kind(number), self.place)
    }

    // The number of an all head.
    pub(crate) fn over<W: Words>(self, rule: &RuleBody<W>) -> Result<u8, RowFault>
        ensures { refused_as row_refusal result ≡ judged self.entry.place.row self.entry.place.field (over_verdict (body_draft rule.now)) (number self.entry.text.now) }
    {
        let number = self.number()?;
        placed(rule.judge_over(number), self.place)
    }
}
