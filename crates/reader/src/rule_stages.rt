//! From row to row of a rules file: 7, the word (8), 5 of the rule before, 9, 4, and then the fields from left to right.
ghost use Rattle.std.specs.Prelude.{◌≡◌, [], OnOk, Ok, Some};
ghost use Rattle.rules.specs.Writing.{no_parts};
ghost use Rattle.rules.specs.Tables.{may_begin};
ghost use Rattle.rules.specs.Sets.{open_rules, head_rules, head_draft, body_rules, body_draft};
ghost use Rattle.rows.specs.Refusals.{refused_as};
ghost use Rattle.rules_file.specs.RuleRefusals.{row_refusal};
ghost use Rattle.rules_file.specs.declared.word_type.RowWord.TheVariants.{Rule};
ghost use Rattle.rules_file.specs.RuleRows.{writing, finished, write_head, write_body, write_word, word, at};
ghost use Rattle.reader.specs.RuleScan.{cells, with_head_row, with_body_row, written, stage_seen, all_rules, Begun, BegunBy, NoHead};

use crate::row_types::{Cell, RuleRow};
use crate::rule_fields::placed;
use crate::rule_parts::{read_body_part, read_head_part};
use crate::spelling::word_written;
use crate::stage_type::Stage;
use facts::Words;
use rows::{FieldFault, Place};
use rules::{BodySort, HeadSort, OpenSet, RuleBody, RuleFault, RuleHead};
use rules_file::{RowFault, RowWord};
use std::mem;

// The part of the row is added to the rule: 9, 4, then its fields.
fn add_head<W: Words>(
    rule: &mut RuleHead<W>,
    sort: HeadSort,
    row: &RuleRow<'_>,
) -> Result<(), RowFault>
    ensures draft { refused_as row_refusal (written result (head_draft rule.new)) ≡ with_head_row W.Words.system.valid row.now.row (cells row.now) sort (head_draft rule.old) }
    ensures rules { head_rules rule.new ≡ head_rules rule.old }
{
    let whole = row.whole();
    placed(rule.may_add(sort), whole)?;
    let part = read_head_part(rule, sort, row)?;
    placed(rule.add(part), whole)
}

// The fact of the row is added to the rule's body: 9, 4, then its fields.
// Not one function with `add_head`: a trait of the two would have a sort, a part and three functions with what each says, for four lines.
fn add_body<W: Words>(
    rule: &mut RuleBody<W>,
    sort: BodySort,
    row: &RuleRow<'_>,
) -> Result<(), RowFault>
    ensures draft { refused_as row_refusal (written result (body_draft rule.new)) ≡ with_body_row W.Words.system.valid row.now.row (cells row.now) sort (body_draft rule.old) }
    ensures rules { body_rules rule.new ≡ body_rules rule.old }
    ensures begun { BegunBy result (body_draft rule.new) }
{
    let whole = row.whole();
    placed(rule.may_add(sort), whole)?;
    let part = read_body_part(rule, sort, row)?;
    placed(rule.add(part), whole)
}

impl<W: Words> Stage<W> {
    // Whether the rule being written, if there is one, may end: 5, which names its `rule` row.
    pub(crate) fn may_end(&self) -> Result<(), RowFault>
        ensures { refused_as row_refusal (written result (all_rules (stage_seen self.now))) ≡ finished (stage_seen self.now) }
    {
        match self {
            Stage::Before => Ok(()),
            Stage::Head(rule, row) => placed(rule.may_end(), Place::whole_row(*row)),
            Stage::Body(body, row) => placed(body.may_end(), Place::whole_row(*row)),
        }
    }

    // Whether one rule more may be begun behind it: 4.
    fn may_begin(&self) -> Result<(), RuleFault>
        ensures { result ≡ may_begin (all_rules (stage_seen self.now)) }
    {
        match self {
            Stage::Before => Ok(()),
            Stage::Head(rule, _) => rule.may_begin_next(),
            Stage::Body(body, _) => body.may_begin_next(),
        }
    }

    // The rule being written, if there is one, stands behind the others.
    pub(crate) fn ended(self) -> OpenSet<W>
        requires { finished (stage_seen self) ≡ Ok (all_rules (stage_seen self)) }
        ensures { open_rules result ≡ all_rules (stage_seen self) }
    {
        match self {
            Stage::Before => OpenSet::new(),
            Stage::Head(rule, _) => rule.body().end(),
            Stage::Body(body, _) => body.end(),
        }
    }

    // The body of the rule being written begins, if there is one whose body has not begun.
    fn begin_body(&mut self)
        ensures same { stage_seen self.new ≡ stage_seen self.old }
        ensures no_head { NoHead self.new }
    {
        if let Stage::Before | Stage::Body(_, _) = self {
            return;
        }
        if let Stage::Head(rule, row) = mem::replace(self, Stage::Before) {
            *self = Stage::Body(rule.body(), row);
        }
    }

    // The first rule of a set is begun.
    fn begin_first(&mut self, row: u32)
        ensures step { stage_seen self.new ≡ writing [] row no_parts }
        ensures begun { Begun self.new }
    {
        *self = Stage::Head(OpenSet::new().begin(), row);
    }

    // A rule is begun behind the others. The rule being written, if there is one, becomes one of them.
    // The `match` moves the set out and each arm moves it back to the same place, with nothing between, so that no copy of the table is left.
    // The first rule is begun apart from them: with an arm that makes a new table, the compiler copies the set in every arm.
    fn begin_next(&mut self, row: u32)
        requires may_end { finished (stage_seen self.old) ≡ Ok (all_rules (stage_seen self.old)) }
        requires may_begin { may_begin (all_rules (stage_seen self.old)) ≡ Ok tt }
        ensures step { stage_seen self.new ≡ writing (all_rules (stage_seen self.old)) row no_parts }
        ensures begun { Begun self.new }
    {
        if let Stage::Before = self {
            self.begin_first(row);
            return;
        }
        match mem::replace(self, Stage::Before) {
            Stage::Before => unreachable!(),
            Stage::Head(rule, _) => *self = Stage::Head(rule.body().end().begin(), row),
            Stage::Body(body, _) => *self = Stage::Head(body.end().begin(), row),
        }
    }

    // What may refuse comes before the first move.
    fn begin_rule(&mut self, row: &RuleRow<'_>) -> Result<(), RowFault>
        ensures step { refused_as row_refusal (written result (stage_seen self.new)) ≡ write_word W.Words.system.valid row.now.row (cells row.now) (stage_seen self.old) (Some Rule) }
        ensures begun { OnOk result (Begun self.new) }
    {
        self.may_end()?;
        let whole = row.whole();
        placed(self.may_begin(), whole)?;
        row.unused_from(2)?;
        self.begin_next(whole.row);
        Ok(())
    }

    fn write_head(&mut self, sort: HeadSort, row: &RuleRow<'_>) -> Result<(), RowFault>
        requires { Begun self.old }
        ensures step { refused_as row_refusal (written result (stage_seen self.new)) ≡ write_head W.Words.system.valid row.now.row (cells row.now) sort (stage_seen self.old) }
        ensures begun { OnOk result (Begun self.new) }
    {
        match self {
            Stage::Head(rule, _) => add_head(rule, sort, row),
            Stage::Before | Stage::Body(_, _) => {
                Err(RowFault::Set(RuleFault::OutOfOrder, row.whole()))
            }
        }
    }

    fn write_body(&mut self, sort: BodySort, row: &RuleRow<'_>) -> Result<(), RowFault>
        ensures step { refused_as row_refusal (written result (stage_seen self.new)) ≡ write_body W.Words.system.valid row.now.row (cells row.now) sort (stage_seen self.old) }
        ensures begun { OnOk result (Begun self.new) }
    {
        self.begin_body();
        match self {
            Stage::Body(body, _) => add_body(body, sort, row),
            Stage::Before | Stage::Head(_, _) => {
                Err(RowFault::Set(RuleFault::OutOfOrder, row.whole()))
            }
        }
    }

    // What the word of the row asks for. A part is added to the rule where it stands, since a stage has the whole set in it.
    pub(crate) fn write_row(&mut self, row: &RuleRow<'_>) -> Result<(), RowFault>
        requires { Begun self.old }
        ensures step { refused_as row_refusal (written result (stage_seen self.new)) ≡ write_word W.Words.system.valid row.now.row (cells row.now) (stage_seen self.old) (word (at 1 (cells row.now))) }
        ensures begun { OnOk result (Begun self.new) }
    {
        let Cell { text, place } = row.cell(1);
        match word_written(text) {
            Some(RowWord::Rule) => self.begin_rule(row),
            Some(RowWord::Head(sort)) => self.write_head(sort, row),
            Some(RowWord::Body(sort)) => self.write_body(sort, row),
            None => Err(RowFault::Field(FieldFault { place })),
        }
    }
}
