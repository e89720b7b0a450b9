//! The parts of a rule, from the fields of a row: each field is read (8), and then judged by the rule set.
ghost use Rattle.std.specs.Prelude.{◌≡◌, ◌+◌, ◌≤◌};
ghost use Rattle.rules.specs.Sets.{head_draft, body_draft};
ghost use Rattle.terms.specs.Terms.{term, argument};
ghost use Rattle.rows.specs.Refusals.{refused_as};
ghost use Rattle.rules_file.specs.RuleRefusals.{row_refusal};
ghost use Rattle.rules_file.specs.RuleRows.{judged_each, passing, mark_verdict, words_from, head, comparison, template, head_part, body_part};
ghost use Rattle.reader.specs.RuleScan.{cells, argument_verdict};

use crate::row_types::RuleRow;
use crate::rule_fields::{Arguments, Judges, JudgesTerms, Terms};
use facts::{WORDS, Words};
use rules::{
    Argument, BodyPart, BodySort, Comparison, GiveAll, HeadPart, HeadSort, Operand, Pattern,
    RuleBody, RuleHead, Template, Term,
};
use rules_file::RowFault;

// What stands in a list of terms before they are read.
const NO_TERM: Term = Term::One(Operand::Constant(0));

// The three fields from this one on, each judged alike.
fn read_words<J: Judges>(
    judge: &J,
    blank: J::Judged,
    row: &RuleRow<'_>,
    first: usize,
) -> Result<[J::Judged; WORDS], RowFault>
    requires { (1 ≤ first) × (first ≤ 4) }
    ensures { refused_as row_refusal result ≡ judged_each row.now.row first J.Judges.reads (J.Judges.verdict judge.now) (words_from first (cells row.now)) }
{
    let mut words = [blank; WORDS];
    for (i, word) in words.iter_mut().enumerate() {
        *word = judge.judge(row.cell(first + i))?;
    }
    Ok(words)
}

// A head: its kind, its arguments, and a field that is not used.
// Rule and sort are two here, in `read_head_part` and in `add_head`: the last changes the rule, which `Arguments` borrows, and with
// `Arguments { rule, sort }` in the arms of `read_head_part` the proof stays open.
fn read_pattern<W: Words>(
    rule: &RuleHead<W>,
    sort: HeadSort,
    row: &RuleRow<'_>,
) -> Result<Pattern, RowFault>
    ensures { refused_as row_refusal result ≡ head row.now.row (argument_verdict W.Words.system.valid (head_draft rule.now) sort) (cells row.now) }
{
    let kind = row.cell(2).kind()?;
    let args = read_words(&Arguments { rule, sort }, Argument::Any, row, 3)?;
    row.unused_from(6)?;
    Ok(Pattern { kind, args })
}

// A comparison: a term, a relation, a term, and two fields that are not used.
fn read_comparison<J: JudgesTerms>(
    terms: &Terms<'_, J>,
    row: &RuleRow<'_>,
) -> Result<Comparison, RowFault>
    ensures { refused_as row_refusal result ≡ comparison row.now.row (J.JudgesTerms.says terms.now.rule.now terms.now.taken) (cells row.now) }
{
    let left = terms.judge(row.cell(2))?;
    let relation = row.cell(3).relation()?;
    let right = terms.judge(row.cell(4))?;
    row.unused_from(5)?;
    Ok(Comparison {
        left,
        relation,
        right,
    })
}

// A fact of the body, whose kind stands in this field: its kind, its terms, and what is not used.
fn read_template<J: JudgesTerms>(
    terms: &Terms<'_, J>,
    row: &RuleRow<'_>,
    first: usize,
) -> Result<Template, RowFault>
    requires { (2 ≤ first) × (first ≤ 3) }
    ensures { refused_as row_refusal result ≡ template row.now.row first (J.JudgesTerms.says terms.now.rule.now terms.now.taken) (cells row.now) }
{
    let kind = row.cell(first).kind()?;
    let terms = read_words(terms, NO_TERM, row, first + 1)?;
    row.unused_from(first + 4)?;
    Ok(Template { kind, terms })
}

pub(crate) fn read_head_part<W: Words>(
    rule: &RuleHead<W>,
    sort: HeadSort,
    row: &RuleRow<'_>,
) -> Result<HeadPart, RowFault>
    ensures { refused_as row_refusal result ≡ head_part W.Words.system.valid row.now.row (head_draft rule.now) sort (cells row.now) }
{
    match sort {
        HeadSort::Keep => read_pattern(rule, HeadSort::Keep, row).map(HeadPart::Keep),
        HeadSort::Drop => read_pattern(rule, HeadSort::Drop, row).map(HeadPart::Drop),
        HeadSort::KeepAll => read_pattern(rule, HeadSort::KeepAll, row).map(HeadPart::KeepAll),
        HeadSort::DropAll => read_pattern(rule, HeadSort::DropAll, row).map(HeadPart::DropAll),
        HeadSort::Only => read_comparison(&Terms { rule, taken: true }, row).map(HeadPart::Only),
        HeadSort::When => read_comparison(&Terms { rule, taken: false }, row).map(HeadPart::When),
    }
}

pub(crate) fn read_body_part<W: Words>(
    rule: &RuleBody<W>,
    sort: BodySort,
    row: &RuleRow<'_>,
) -> Result<BodyPart, RowFault>
    ensures { refused_as row_refusal result ≡ body_part W.Words.system.valid row.now.row (body_draft rule.now) sort (cells row.now) }
{
    match sort {
        BodySort::Give => read_template(&Terms { rule, taken: false }, row, 2).map(BodyPart::Give),
        BodySort::GiveAll => {
            let over = row.cell(2).over(rule)?;
            let each = read_template(&Terms { rule, taken: true }, row, 3)?;
            Ok(BodyPart::GiveAll(GiveAll { over, each }))
        }
    }
}
