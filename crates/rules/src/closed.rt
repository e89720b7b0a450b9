//! What a closed set answers.
ghost use Rattle.std.specs.Prelude.{◌≡◌, ◌≤◌, true, length, OnSome};
ghost use Rattle.rules.specs.Rules.{any};
ghost use Rattle.rules.specs.Tables.{finished};
ghost use Rattle.rules.specs.Closed.{stand, every_word, head_count, head, place_seen, names, watched, IsRuleAt};
ghost use Rattle.rules.specs.Sets.{closed_rules};

use crate::closed_type::ClosedSet;
use crate::rule_types::{HeadPlace, RuleRecord};
use crate::set_types::OpenSet;
use facts::{Fact, Words};

impl<W: Words> OpenSet<W> {
    /// The set is closed with its rules. Nothing can refuse it: a rule that may not end never becomes a rule of the set.
    pub fn close(self) -> ClosedSet<W>
        ensures { closed_rules result ≡ finished self.table }
    {
        let OpenSet { system, table } = self;
        let watched = table.watched();
        ClosedSet {
            system,
            table,
            watched,
        }
    }
}

impl<W: Words> ClosedSet<W> {
    /// How many rules the set has.
    pub fn rule_count(&self) -> usize
        ensures count { result ≡ length (closed_rules self.now) }
        ensures stands { stand every_word (closed_rules self.now) ≡ true }
    {
        self.table.rules().len()
    }

    /// How many single heads the rules of the set have.
    pub fn head_count(&self) -> usize
        ensures { result ≡ head_count (closed_rules self.now) }
    {
        self.table.head_count()
    }

    /// Where the head of this number stands; heads are numbered from 1 through the set.
    pub fn head(&self, number: usize) -> Option<HeadPlace>
        ensures place { place_seen (closed_rules self.now) result ≡ head (closed_rules self.now) number }
        ensures few { OnSome result (number ≤ 128) }
    {
        self.table.head_at(number.saturating_sub(1))
    }

    /// The record of the rule at an index of the set, or none.
    pub fn rule(&self, index: usize) -> Option<&RuleRecord>
        ensures rule { IsRuleAt (closed_rules self.now) index result }
        ensures stands { stand every_word (closed_rules self.now) ≡ true }
    {
        self.table.rules().get(index)
    }

    fn is_watched(&self, kind: u8) -> bool
        ensures { result ≡ any (names kind) (closed_rules self.now) }
    {
        self.watched
            .get(usize::from(kind))
            .copied()
            .unwrap_or(false)
    }

    /// Whether the fact is watched: some all head of the set names its kind. No fact of a kind above 63 is.
    pub fn watches(&self, fact: &Fact) -> bool
        ensures { result ≡ watched (closed_rules self.now) fact.now }
    {
        self.is_watched(fact.kind)
    }
}
