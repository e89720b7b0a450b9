//! From stage to stage of a set that is being written. What may refuse is a check that moves nothing; the move behind it cannot.
ghost use Rattle.std.specs.Prelude.{◌≡◌, true, [], ◌∷◌, ◌++◌, Ok};
ghost use Rattle.rules.specs.Writing.{no_parts, may_add, may_add_body, single_verdict, all_verdict, term_verdict, over_verdict, add_head, add_body};
ghost use Rattle.rules.specs.Tables.{finished, draft, may_begin, may_end, Added};
ghost use Rattle.rules.specs.Closed.{accepted, parts_verdict, stand};

use crate::judging::{Scope, judge_all, judge_over, judge_single};
use crate::ordering::may_add;
use crate::rule_types::{Argument, BodyPart, BodySort, HeadPart, HeadSort, RuleFault, Term};
use crate::set_types::{OpenSet, RuleBody, RuleHead};
use crate::table::{new_table, room_behind};
use facts::Words;
use std::marker::PhantomData;

impl<W: Words> OpenSet<W> {
    /// A set without rules.
    pub fn new() -> OpenSet<W>
        ensures { finished result.table ≡ [] }
    {
        OpenSet {
            system: PhantomData,
            table: new_table(),
        }
    }

    /// Whether one rule more may be begun: 4 where the set has 32.
    pub fn may_begin(&self) -> Result<(), RuleFault>
        ensures { result ≡ may_begin (finished self.now.table) }
    {
        room_behind(self.table.rules().len())
    }

    /// A rule without parts is begun.
    pub fn begin(self) -> RuleHead<W>
        requires { may_begin (finished self.table) ≡ Ok tt }
        ensures rules { finished result.table ≡ finished self.table }
        ensures rule { draft result.table ≡ no_parts }
    {
        let OpenSet { system, table } = self;
        RuleHead { system, table }
    }
}

impl<W: Words> RuleHead<W> {
    /// Whether a part of this sort may come next: 9, then 4.
    pub fn may_add(&self, sort: HeadSort) -> Result<(), RuleFault>
        ensures { result ≡ may_add sort (draft self.now.table) }
    {
        may_add::<HeadSort>(self.table.draft(), sort)
    }

    /// How an argument of a single head is judged: 2 or 3. A letter of A to H and a valid constant pass.
    pub fn judge_single(&self, argument: Argument) -> Result<(), RuleFault>
        ensures { result ≡ single_verdict W.Words.system.valid argument }
    {
        judge_single::<W>(argument)
    }

    /// How an argument of an all head is judged: 2 or 3. A letter of a single head, a valid constant and `*` pass.
    pub fn judge_all(&self, argument: Argument) -> Result<(), RuleFault>
        ensures { result ≡ all_verdict W.Words.system.valid (draft self.now.table) argument }
    {
        judge_all::<W>(self.table.draft(), argument)
    }

    /// How a term of a comparison is judged, its operands from left to right: 2 or 3. X, Y and Z may stand in an `only`.
    pub fn judge_term(&self, in_only: bool, term: Term) -> Result<(), RuleFault>
        ensures { result ≡ term_verdict W.Words.system.valid (draft self.now.table) in_only term }
    {
        let rule = self.table.draft();
        let scope = Scope {
            rule,
            taken: in_only,
        };
        scope.judge_term::<W>(term)
    }

    /// A head or a comparison more: 9, 4, then its fields from left to right. A refused part changes nothing.
    pub fn add(&mut self, part: HeadPart) -> Result<(), RuleFault>
        ensures added { Added (add_head W.Words.system.valid part (draft self.old.table)) self.old.table self.new.table result }
        ensures stands { accepted (parts_verdict W.Words.system.valid (draft self.old.table)) ≡ true → accepted (parts_verdict W.Words.system.valid (draft self.new.table)) ≡ true }
    {
        self.table.add::<W, HeadPart>(part)
    }

    /// Whether the rule may end: 5 where it has no `drop` head.
    pub fn may_end(&self) -> Result<(), RuleFault>
        ensures { result ≡ may_end (draft self.now.table) }
    {
        // A rule may end with heads alone: it need give nothing.
        self.table.may_end()
    }

    /// Whether one rule more may be begun once this one has ended: 4 where the set then has 32.
    pub fn may_begin_next(&self) -> Result<(), RuleFault>
        ensures { result ≡ may_begin (finished self.now.table ++ (draft self.now.table ∷ [])) }
    {
        self.table.may_begin_next()
    }

    /// The rule's body begins.
    pub fn body(self) -> RuleBody<W>
        ensures { result.table ≡ self.table }
    {
        let RuleHead { system, table } = self;
        RuleBody { system, table }
    }
}

// `may_add`, `judge_term` and `add` stand in both stages: they are two types, so that a part that may not come next does not compile.
impl<W: Words> RuleBody<W> {
    /// Whether a part of this sort may come next: 9, then 4.
    pub fn may_add(&self, sort: BodySort) -> Result<(), RuleFault>
        ensures { result ≡ may_add_body sort (draft self.now.table) }
    {
        may_add::<BodySort>(self.table.draft(), sort)
    }

    /// Which all head a number means: 6 where the rule has none of that number.
    pub fn judge_over(&self, number: i64) -> Result<u8, RuleFault>
        ensures { result ≡ over_verdict (draft self.now.table) number }
    {
        judge_over(self.table.draft(), number)
    }

    /// How a term of a fact is judged, its operands from left to right: 2 or 3. X, Y and Z may stand in a `giveall`.
    pub fn judge_term(&self, in_giveall: bool, term: Term) -> Result<(), RuleFault>
        ensures { result ≡ term_verdict W.Words.system.valid (draft self.now.table) in_giveall term }
    {
        let rule = self.table.draft();
        let scope = Scope {
            rule,
            taken: in_giveall,
        };
        scope.judge_term::<W>(term)
    }

    /// A fact more that the rule gives: 9, 4, then its fields from left to right. A refused part changes nothing.
    pub fn add(&mut self, part: BodyPart) -> Result<(), RuleFault>
        ensures added { Added (add_body W.Words.system.valid part (draft self.old.table)) self.old.table self.new.table result }
        ensures stands { accepted (parts_verdict W.Words.system.valid (draft self.old.table)) ≡ true → accepted (parts_verdict W.Words.system.valid (draft self.new.table)) ≡ true }
    {
        self.table.add::<W, BodyPart>(part)
    }

    /// Whether the rule may end: 5 where it has no `drop` head.
    pub fn may_end(&self) -> Result<(), RuleFault>
        ensures { result ≡ may_end (draft self.now.table) }
    {
        self.table.may_end()
    }

    /// Whether one rule more may be begun once this one has ended: 4 where the set then has 32.
    pub fn may_begin_next(&self) -> Result<(), RuleFault>
        ensures { result ≡ may_begin (finished self.now.table ++ (draft self.now.table ∷ [])) }
    {
        self.table.may_begin_next()
    }

    /// The rule stands behind the others of the set.
    pub fn end(self) -> OpenSet<W>
        requires { may_end (draft self.table) ≡ Ok tt }
        ensures rules { finished result.table ≡ finished self.table ++ (draft self.table ∷ []) }
        ensures stands { stand W.Words.system.valid (finished self.table) ≡ true → accepted (parts_verdict W.Words.system.valid (draft self.table)) ≡ true → stand W.Words.system.valid (finished result.table) ≡ true }
    {
        let RuleBody { system, table } = self;
        let table = table.ended();
        OpenSet { system, table }
    }
}
