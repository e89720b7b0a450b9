//! The rules of a set. The record of the rule being written is lent out of the table to be changed.
ghost use Rattle.std.specs.Prelude.{◌≡◌, ◌<◌, [], ◌∷◌, ◌++◌, length, map, cond, nat_lt, Ok, Err, OnSome};
ghost use Rattle.rules.specs.declared.rule_types.RuleFault.TheVariants.{TooMany};
ghost use Rattle.rules.specs.Writing.{no_parts};
ghost use Rattle.rules.specs.Rules.{rule_seen, any};
ghost use Rattle.rules.specs.Tables.{finished, draft, may_begin, may_end, WroteAt, Added};
ghost use Rattle.rules.specs.Closed.{IsRuleAt, head_count, head_from, place_seen, names, watched_kinds};

use crate::closed_type::KIND_COUNT;
use crate::rule_types::{
    Argument, GiveAll, HeadPlace, Operand, Pattern, RULES, RuleFault, RuleRecord, Template, Term,
};
use crate::table_type::Table;
use crate::writing::{BLANK, Part, all_head};
use facts::{WORDS, Words};
use lists::FixedList;
use std::array;

// What stands in the unused places of a record.
const NO_PATTERN: Pattern = Pattern {
    kind: 0,
    args: [Argument::Any; WORDS],
};

const NO_TEMPLATE: Template = Template {
    kind: 0,
    terms: [Term::One(Operand::Constant(0)); WORDS],
};

const NO_GIVEALL: GiveAll = GiveAll {
    over: 0,
    each: NO_TEMPLATE,
};

// Out of line: with its fields in sight, the compiler spends minutes on the 32 copies of it in a table.
#[inline(never)]
fn blank_rule() -> RuleRecord
    ensures { rule_seen result ≡ no_parts }
{
    RuleRecord {
        singles: FixedList::new(NO_PATTERN),
        keep_count: 0,
        alls: FixedList::new(all_head(false, NO_PATTERN)),
        whens: FixedList::new(BLANK),
        gives: FixedList::new(NO_TEMPLATE),
        givealls: FixedList::new(NO_GIVEALL),
    }
}

pub(crate) fn new_table() -> Table
    ensures rules { finished result ≡ [] }
    ensures rule { draft result ≡ no_parts }
{
    Table {
        rules: FixedList::new(blank_rule()),
    }
}

// Whether one rule more may be begun behind so many.
pub(crate) fn room_behind(count: usize) -> Result<(), RuleFault>
    ensures { result ≡ cond (nat_lt count 32) (Ok tt) (Err TooMany) }
{
    if count < RULES {
        Ok(())
    } else {
        Err(RuleFault::TooMany)
    }
}

fn rule_names(rule: &RuleRecord, kind: usize) -> bool
    ensures { result ≡ names kind (rule_seen rule.now) }
{
    let alls = rule.alls.as_slice();
    alls.iter().any(|all| usize::from(all.pattern.kind) == kind)
}

// A part is written into the record at an index.
fn write_at<W: Words, P: Part>(
    records: &mut [RuleRecord],
    at: usize,
    part: P,
) -> Result<(), RuleFault>
    requires { at < length records.old }
    ensures { WroteAt at (P.Part.added W.Words.system.valid part) records.old records.new result }
{
    part.write::<W>(&mut records[at])
}

impl Table {
    // The records of the rules of the set.
    pub(crate) fn rules(&self) -> &[RuleRecord]
        ensures { map rule_seen result.now ≡ finished self.now }
    {
        self.rules.as_slice()
    }

    // The record of the rule being written. By a rule of the project it is lent out of the table of records to be changed. It stands
    // behind the last rule, so these functions ask for room there, and read the list by its fields: it is no item of the list yet.
    pub(crate) fn draft(&self) -> &RuleRecord
        requires { self.now.rules.count < 32 }
        ensures { rule_seen result.now ≡ draft self.now }
    {
        &self.rules.items[self.rules.count]
    }

    // Whether the rule being written may end.
    pub(crate) fn may_end(&self) -> Result<(), RuleFault>
        requires { self.now.rules.count < 32 }
        ensures { result ≡ may_end (draft self.now) }
    {
        let rule = self.draft();
        if rule.singles.len() > rule.keep_count {
            Ok(())
        } else {
            Err(RuleFault::NoDrop)
        }
    }

    // Whether one rule more may be begun behind the one being written.
    pub(crate) fn may_begin_next(&self) -> Result<(), RuleFault>
        ensures { result ≡ may_begin (finished self.now ++ (draft self.now ∷ [])) }
    {
        room_behind(self.rules().len() + 1)
    }

    // The rule being written becomes the last rule. By value, and the records in one piece, so that they are moved once.
    pub(crate) fn ended(self) -> Table
        requires { self.rules.count < 32 }
        ensures rules { finished result ≡ finished self ++ (draft self ∷ []) }
        ensures rule { draft result ≡ no_parts }
    {
        let Table { rules } = self;
        let FixedList { items, count } = rules;
        Table {
            rules: FixedList {
                items,
                count: count + 1,
            },
        }
    }

    // The rule being written gets one part more, or the part is turned down.
    pub(crate) fn add<W: Words, P: Part>(&mut self, part: P) -> Result<(), RuleFault>
        requires { self.old.rules.count < 32 }
        ensures { Added (P.Part.added W.Words.system.valid part (draft self.old)) self.old self.new result }
    {
        let at = self.rules.count;
        write_at::<W, P>(&mut self.rules.items, at, part)
    }

    // How many heads the rules of the set have.
    pub(crate) fn head_count(&self) -> usize
        ensures { result ≡ head_count (finished self.now) }
    {
        let rules = self.rules.as_slice();
        rules.iter().map(|rule| rule.singles.len()).sum()
    }

    // Where the head of this number stands, counted from 0 through the rules of the set.
    pub(crate) fn head_at(&self, number: usize) -> Option<HeadPlace>
        ensures place { place_seen (finished self.now) result ≡ head_from 1 (finished self.now) number }
        ensures few { OnSome result (number < 128) }
    {
        // A loop, and `as`: what is left of the number goes from rule to rule, and an index is below 32 or 4, so `try_from` could not fail.
        let mut left = number;
        for (i, rule) in self.rules.as_slice().iter().enumerate() {
            let heads = rule.singles.len();
            if left < heads {
                return Some(HeadPlace {
                    rule: i as u8,
                    place: left as u8,
                });
            }
            left -= heads;
        }
        None
    }

    // Whether some all head of the set names the kind.
    fn names_kind(&self, kind: usize) -> bool
        ensures { result ≡ any (names kind) (finished self.now) }
    {
        let rules = self.rules.as_slice();
        rules.iter().any(|rule| rule_names(rule, kind))
    }

    // Of each kind, whether some all head of the set names it.
    pub(crate) fn watched(&self) -> [bool; KIND_COUNT]
        ensures { result ≡ watched_kinds (finished self.now) }
    {
        array::from_fn(|kind| self.names_kind(kind))
    }
}
