//! The search for the lowest choice of facts that makes a rule ready, with the active fact at its place.
ghost use Rattle.std.specs.Prelude.{◌≡◌, ◌<◌, length, true, Some};
ghost use Rattle.lists.specs.Held.{held};
ghost use Rattle.rules.specs.Rules.{rule_seen};
ghost use Rattle.rules.specs.Closed.{accepted, rule_verdict, every_word};
ghost use Rattle.stores.specs.Lists.{has};
ghost use Rattle.stores.specs.Store.{read, next_that};
ghost use Rattle.machine.specs.Machine.{chosen};
ghost use Rattle.engine.specs.Searching.{first_word, is_candidate, IsFound, extended, IsExtended, IsPartial, found_from, candidates_stand};

use crate::letters::{LETTER_COUNT, Letters, bind_fact};
use crate::terms::conditions_hold;
use facts::{Fact, Words};
use lists::FixedList;
use rules::{Argument, Pattern, RuleRecord, SINGLES};
use stores::Store;

/// Labels chosen for the first single heads of a rule, and the letters that their facts and the active fact bind.
#[derive(Clone, Copy)]
pub(crate) struct Choice {
    pub(crate) labels: FixedList<u32, SINGLES>,
    pub(crate) letters: Letters,
}

pub(crate) fn is_among(label: u32, labels: &[u32]) -> bool
    ensures { result ≡ has label labels.now }
{
    labels.contains(&label)
}

/// The word that a head asks for at its first place, where that is known.
fn first_word(letters: &Letters, pattern: &Pattern) -> Option<i64>
    ensures { result ≡ first_word letters.now pattern.now }
{
    match pattern.args[0] {
        Argument::Letter(letter) => *letters.get(usize::from(letter))?,
        Argument::Constant(word) => Some(word),
        Argument::Any => None,
    }
}

/// The next label above another whose fact may fit a head.
pub(crate) fn next_candidate<S: Store>(
    store: &S,
    letters: &Letters,
    pattern: &Pattern,
    above: u32,
) -> Option<u32>
    ensures { result ≡ next_that (is_candidate letters.now pattern.now) above (S.meaning store.now).pairs }
{
    match first_word(letters, pattern) {
        Some(word) => store.next_with(pattern.kind, word, above),
        None => store.next(pattern.kind, above),
    }
}

/// What is searched: a store, for a choice for a rule with the active fact at a place among its single heads.
#[derive(Drop)]
struct Searched<'a, S> {
    store: &'a S,
    rule: &'a RuleRecord,
    place: usize,
    active: u32,
}

impl<S: Store> Searched<'_, S> {
    /// The choice with one label more, where that is not chosen yet and its fact fits the head.
    fn extended(&self, head: &Pattern, choice: &Choice, label: u32) -> Option<Choice>
        requires { length (held choice.now.labels) < 4 }
        ensures { IsExtended (extended (S.meaning self.now.store.now).pairs head.now self.now.active (held choice.now.labels) choice.now.letters label) choice.now label result }
    {
        if label == self.active || is_among(label, choice.labels.as_slice()) {
            return None;
        }
        let fact = self.store.read(label)?;
        let mut letters = choice.letters;
        bind_fact(&mut letters, head, &fact)?;
        let mut labels = choice.labels;
        labels.push(label);
        Some(Choice { labels, letters })
    }

    /// The lowest choice that begins with the labels chosen so far and makes the rule ready.
    fn search_from<W: Words>(&self, choice: &Choice) -> Option<Choice>
        requires { IsPartial (S.meaning self.now.store.now).pairs (rule_seen self.now.rule.now) self.now.place self.now.active (held choice.now.labels) choice.now.letters }
        ensures { IsFound (rule_seen self.now.rule.now) (found_from W.system (rule_seen self.now.rule.now) self.now.place self.now.active (S.meaning self.now.store.now).pairs (held choice.now.labels)) result }
    {
        let at = choice.labels.len();
        let Some(head) = self.rule.singles.as_slice().get(at) else {
            return conditions_hold::<W>(&choice.letters, self.rule).then_some(*choice);
        };
        if at == self.place {
            let mut longer = *choice;
            longer.labels.push(self.active);
            return self.search_from::<W>(&longer);
        }
        // By hand: a store lends no iterator, and answers each label from the one before it.
        let mut above = 0;
        while let Some(label) = next_candidate(self.store, &choice.letters, head, above) {
            if let Some(longer) = self.extended(head, choice, label) {
                if let Some(found) = self.search_from::<W>(&longer) {
                    return Some(found);
                }
            }
            above = label;
        }
        None
    }

    /// Whether every head but the active fact's has a fact that may fit it.
    fn all_have_candidates(&self, letters: &Letters) -> bool
        ensures { result ≡ candidates_stand (S.meaning self.now.store.now).pairs letters.now self.now.place 0 (held self.now.rule.now.singles) }
    {
        self.rule.singles.as_slice().iter().enumerate().all(|(at, head)| at == self.place
            || next_candidate(self.store, letters, head, 0).is_some())
    }
}

/// The lowest choice of stored facts that makes a rule ready, with the active fact at a place among its single heads.
pub(crate) fn search<W: Words, S: Store>(
    store: &S,
    rule: &RuleRecord,
    place: usize,
    active: u32,
    fact: &Fact,
) -> Option<Choice>
    requires stands { accepted (rule_verdict every_word (rule_seen rule.now)) ≡ true }
    requires place { place < rule.now.singles.count }
    requires held { read active (S.meaning store.now).pairs ≡ Some fact.now }
    ensures { IsFound (rule_seen rule.now) (chosen W.system (rule_seen rule.now) place active (S.meaning store.now).pairs) result }
{
    let mut letters = [None; LETTER_COUNT];
    bind_fact(&mut letters, &rule.singles.as_slice()[place], fact)?;
    let searched = Searched {
        store,
        rule,
        place,
        active,
    };
    // Not asked of a rule with at most one head besides the active fact's: the search asks for that head's first candidate itself.
    if rule.singles.len() > 2 && !searched.all_have_candidates(&letters) {
        return None;
    }
    let none = Choice {
        labels: FixedList::new(0),
        letters,
    };
    searched.search_from::<W>(&none)
}
