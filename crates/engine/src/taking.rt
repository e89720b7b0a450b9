//! What the all heads of a rule take of the stored facts.
ghost use Rattle.std.specs.Prelude.{◌≡◌, [], map, slice_index_or};
ghost use Rattle.lists.specs.Held.{held};
ghost use Rattle.rules.specs.Rules.{rule_seen, all_seen};
ghost use Rattle.stores.specs.Store.{labels};
ghost use Rattle.engine.specs.Letters.{setting_in};
ghost use Rattle.engine.specs.Taking.{takes, takes_label, taken_by_head, all_taken, Took, gone_number};

use crate::found::Found;
use crate::letters::Letters;
use crate::search::{is_among, next_candidate};
use crate::terms::fits_all_head;
use facts::{Fact, Words};
use lists::FixedList;
use rules::{ALLS, AllRecord};
use stores::{ROWS, Store};

/// The labels of the facts that an all head takes, by rising label.
pub(crate) type Taken = FixedList<u32, ROWS>;

/// What each all head that a rule may have takes, which is nothing where there is none.
pub(crate) type AllTaken = [Taken; ALLS];

/// An all head that takes facts: the words of the letters, the labels that are chosen for single heads, and the all heads before
/// it, whose facts it leaves to them.
#[derive(Clone, Copy)]
struct Taker<'a> {
    letters: &'a Letters,
    chosen: &'a [u32],
    earlier: &'a [AllRecord],
    all: &'a AllRecord,
}

impl Taker<'_> {
    fn takes<W: Words>(&self, fact: &Fact) -> bool
        ensures { result ≡ takes W.system (setting_in self.now.letters.now) (map all_seen self.now.earlier.now) (all_seen self.now.all.now) fact.now }
    {
        let taken = self
            .earlier
            .iter()
            .any(|before| fits_all_head::<W>(self.letters, before, fact));
        !taken && fits_all_head::<W>(self.letters, self.all, fact)
    }

    fn takes_label<W: Words, S: Store>(&self, store: &S, label: u32) -> bool
        ensures { result ≡ takes_label W.system (setting_in self.now.letters.now) (map all_seen self.now.earlier.now) (all_seen self.now.all.now) self.now.chosen.now (S.meaning store.now).pairs label }
    {
        !is_among(label, self.chosen)
            && store.read(label).is_some_and(|fact| self.takes::<W>(&fact))
    }

    /// What the all head takes of the stored facts that are not chosen for a single head.
    fn take<W: Words, S: Store>(&self, store: &S, taken: &mut Taken)
        ensures { held taken.new ≡ labels (taken_by_head W.system (setting_in self.now.letters.now) (map all_seen self.now.earlier.now) (all_seen self.now.all.now) self.now.chosen.now (S.meaning store.now).pairs) }
    {
        taken.clear();
        // By hand: a store lends no iterator, and answers each label from the one before it.
        let mut above = 0;
        while let Some(label) = next_candidate(store, self.letters, &self.all.pattern, above) {
            if self.takes_label::<W, S>(store, label) {
                taken.push(label);
            }
            above = label;
        }
    }
}

impl Found<'_> {
    /// What the all head at an index takes, which is nothing where there is none.
    fn take_at<W: Words, S: Store>(self, store: &S, index: usize, taken: &mut Taken)
        ensures { held taken.new ≡ labels (slice_index_or (all_taken W.system (setting_in self.entry.choice.now.letters) (rule_seen self.entry.rule.now) (held self.entry.choice.now.labels) (S.meaning store.now).pairs) index []) }
    {
        let alls = self.rule.alls.as_slice();
        match alls.get(index) {
            Some(all) => {
                let taker = Taker {
                    letters: &self.choice.letters,
                    chosen: self.chosen(),
                    earlier: &alls[..index],
                    all,
                };
                taker.take::<W, S>(store, taken);
            }
            None => taken.clear(),
        }
    }

    /// What all heads of the rule take of the stored facts that are not chosen for a single head.
    pub(crate) fn take_all<W: Words, S: Store>(self, store: &S, taken: &mut AllTaken)
        ensures { Took (all_taken W.system (setting_in self.entry.choice.now.letters) (rule_seen self.entry.rule.now) (held self.entry.choice.now.labels) (S.meaning store.now).pairs) taken.new }
    {
        for (index, labels) in taken.iter_mut().enumerate() {
            self.take_at::<W, S>(store, index, labels);
        }
    }

    /// How many facts leave: those of the `drop` heads, and those that the `dropall` heads took.
    pub(crate) fn gone_count(self, taken: &AllTaken) -> usize
        ensures { result ≡ gone_number (rule_seen self.entry.rule.now) (map held taken.now) }
    {
        let alls = self.rule.alls.as_slice();
        let by_alls: usize = alls
            .iter()
            .zip(taken)
            .filter(|(all, _)| all.drops)
            .map(|(_, labels)| labels.len())
            .sum();
        self.dropped().len() + by_alls
    }
}
