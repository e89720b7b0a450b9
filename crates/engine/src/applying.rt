//! A rule is applied to a choice of facts.
ghost use Rattle.std.specs.Prelude.{◌≡◌, ◌+◌, ◌-◌, ◌^◌, ◌≤◌, ◌<◌, ◌++◌, true, cond, if◌then◌else◌, length, map, flat_map, take, min, Some, None};
ghost use Rattle.lists.specs.Held.{held};
ghost use Rattle.rules.specs.Rules.{all, rule_seen};
ghost use Rattle.rules.specs.Closed.{heads_of};
ghost use Rattle.rules.specs.Sets.{closed_rules};
ghost use Rattle.stores.specs.Piles.{with_pairs};
ghost use Rattle.stores.specs.Store.{without};
ghost use Rattle.machine.specs.Machine.{chosen, try_choice, bring, listed, seen, shortage};
ghost use Rattle.machine.specs.declared.goal_types.Goal.TheVariants.{Try};
ghost use Rattle.engine.specs.Applying.{gone_labels, rule_at, place_at, choice_in, used_labels, leaving_labels, facts_in, left_by, IsWeighed};
ghost use Rattle.engine.specs.Bringing.{has_kind};
ghost use Rattle.engine.specs.Goals.{top_of, below};
ghost use Rattle.engine.specs.Jobs.{state_of, frame_of, IsOutcome};
ghost use Rattle.engine.specs.Room.{room, short_of_room};
ghost use Rattle.engine.specs.Searching.{IsFound};

use crate::bringing::bring_in;
use crate::found::{Found, rule_of};
use crate::job_type::Job;
use crate::removing::{remove_all, write_labels};
use crate::room::{Used, room_in_job};
use crate::search::{Choice, is_among};
use crate::stack::{GOALS, Stack};
use crate::taking::AllTaken;
use facts::Words;
use machine::{Answer, Application, Shortage, StepFault};
use rules::HeadPlace;
use stores::Store;

/// What an application comes to, besides what is taken and given: how many facts leave, and whether the active one does.
#[derive(Clone, Copy)]
struct Weighed {
    removed: usize,
    goes: bool,
}

impl Found<'_> {
    // The labels of the facts of the single heads, and then those of what the all heads took, begin the list.
    fn list_labels(self, list: &mut [u32], taken: &AllTaken)
        requires room { self.rule.now.singles.count + length (flat_map held taken.now) ≤ length list.old }
        ensures { list.new ≡ listed (held self.entry.choice.now.labels ++ flat_map held taken.now) list.old }
    {
        let mut end = write_labels(list, 0, self.chosen());
        for labels in taken {
            end = write_labels(list, end, labels.as_slice());
        }
    }

    // The facts of the `drop` heads, and those that the `dropall` heads took, leave the store.
    fn remove_gone<S: Store>(self, store: &mut S, taken: &AllTaken)
        ensures { S.meaning store.new ≡ with_pairs (S.meaning store.old) (without (gone_labels (rule_seen self.entry.rule.now) (held self.entry.choice.now.labels) (map held taken.now)) (S.meaning store.old).pairs) }
    {
        let alls = self.rule.alls.as_slice();
        remove_all(store, self.dropped());
        for (all, labels) in alls.iter().zip(taken) {
            if all.drops {
                remove_all(store, labels.as_slice());
            }
        }
    }
}

// The top goal goes, if it does.
fn leave_top(goals: &mut Stack, goes: bool)
    ensures { goals.new ≡ cond goes (below goals.old) goals.old }
{
    if goes {
        goals.pop();
    }
}

impl<W: Words + Drop, S: Store + Drop> Job<W, S> {
    // Whether there is room to bring in the body where so many facts have left, and the top goal if it goes, or what there is too
    // little of.
    fn room_for_body(&self, removed: usize, goes: bool) -> Result<(), Shortage>
        requires removed { removed ≤ length (S.meaning self.now.store).pairs }
        requires goal { 1 ≤ length self.now.goals }
        requires few { self.now.scratch.body.count < 2 ^ 32 }
        ensures { result ≡ room (short_of_room (length self.now.goals - (if goes then 1 else 0)) self.now.scratch.body.count (S.meaning self.now.store).capacity (length (S.meaning self.now.store).pairs - removed) self.now.next (length (seen (closed_rules self.now.set) (take (min self.now.scratch.body.count 512) self.now.scratch.body.facts)))) }
    {
        let used = self.used();
        let left = Used {
            goals: used.goals - usize::from(goes),
            facts: used.facts - removed,
            next: used.next,
            capacity: used.capacity,
        };
        let count = self.scratch.body.count;
        let kept = count.min(GOALS);
        let watched = self.watched_count(&self.scratch.body.facts[0..kept]);
        room_in_job(&left, count, watched)
    }

    // What an application comes to, or why it is refused.
    // By hand: `rule` is asked in place of the rule's record, which the job would lend while it is changed.
    fn weigh(
        &mut self,
        active: u32,
        place: HeadPlace,
        choice: &Choice,
    ) -> Result<Weighed, StepFault>
        requires goal { 1 ≤ length self.old.goals }
        requires rule { place.rule < length (closed_rules self.old.set) }
        requires place { place.place < heads_of (rule_at (closed_rules self.old.set) place) }
        requires found { IsFound (rule_at (closed_rules self.old.set) place) (chosen W.system (rule_at (closed_rules self.old.set) place) place.place active (S.meaning self.old.store).pairs) (Some choice.now) }
        ensures weighed { IsWeighed (frame_of W.system S.meaning self.old) (place_at (closed_rules self.old.set) place) active (state_of S.meaning self.old) (choice_in (chosen W.system (rule_at (closed_rules self.old.set) place) place.place active (S.meaning self.old.store).pairs)) self.new.scratch.taken self.new.scratch.body result }
        ensures set { self.new.set ≡ self.old.set }
        ensures store { self.new.store ≡ self.old.store }
        ensures next { self.new.next ≡ self.old.next }
        ensures goals { self.new.goals ≡ self.old.goals }
    {
        let rule = rule_of(&self.set, place);
        let found = Found { rule, choice };
        found.take_all::<W, S>(&self.store, &mut self.scratch.taken);
        let taken = &self.scratch.taken;
        found
            .body_of::<W, S>(&self.store, taken, &mut self.scratch.body)
            .ok_or(StepFault::Body)?;
        let removed = found.gone_count(taken);
        let goes = is_among(active, found.dropped());
        self.room_for_body(removed, goes)?;
        Ok(Weighed { removed, goes })
    }

    // The application is done.
    // By hand: `rule` is asked as in `weigh`.
    fn carry_out(&mut self, place: HeadPlace, choice: &Choice, goes: bool, list: &mut [u32])
        requires rule { place.rule < length (closed_rules self.old.set) }
        requires whole { length (held choice.now.labels) ≡ heads_of (rule_at (closed_rules self.old.set) place) }
        requires wide { heads_of (rule_at (closed_rules self.old.set) place) + length (flat_map held self.old.scratch.taken) ≤ length list.old }
        requires added { self.old.scratch.body.count ≡ length (facts_in self.old.scratch.body) }
        requires kinds { all has_kind (facts_in self.old.scratch.body) ≡ true }
        requires room { shortage (frame_of W.system S.meaning self.old) (facts_in self.old.scratch.body) (left_by (leaving_labels (rule_at (closed_rules self.old.set) place) choice.now self.old.scratch.taken) goes (state_of S.meaning self.old)) ≡ None }
        ensures state { state_of S.meaning self.new ≡ bring (closed_rules self.old.set) (facts_in self.old.scratch.body) (left_by (leaving_labels (rule_at (closed_rules self.old.set) place) choice.now self.old.scratch.taken) goes (state_of S.meaning self.old)) }
        ensures list { list.new ≡ listed (used_labels choice.now self.old.scratch.taken) list.old }
        ensures frame { frame_of W.system S.meaning self.new ≡ frame_of W.system S.meaning self.old }
    {
        let rule = rule_of(&self.set, place);
        let found = Found { rule, choice };
        found.list_labels(list, &self.scratch.taken);
        found.remove_gone(&mut self.store, &self.scratch.taken);
        leave_top(&mut self.goals, goes);
        let count = self.scratch.body.count;
        bring_in::<W, S>(
            &self.set,
            &mut self.store,
            &mut self.next,
            &mut self.goals,
            &self.scratch.body.facts[..count],
        );
    }

    /// The rule whose head stands at a place is applied to a choice that has the active label there, or refused.
    // By hand: `top` and `wide` are asked as in `try_at`, and `rule` as in `weigh`.
    #[inline(never)]
    pub(crate) fn apply(
        &mut self,
        active: u32,
        number: u8,
        place: HeadPlace,
        choice: &Choice,
        list: &mut [u32],
    ) -> Answer
        requires top { top_of self.old.goals ≡ Some (Try active number) }
        requires wide { (S.meaning self.old.store).capacity ≤ length list.old }
        requires rule { place.rule < length (closed_rules self.old.set) }
        requires place { place.place < heads_of (rule_at (closed_rules self.old.set) place) }
        requires found { IsFound (rule_at (closed_rules self.old.set) place) (chosen W.system (rule_at (closed_rules self.old.set) place) place.place active (S.meaning self.old.store).pairs) (Some choice.now) }
        ensures outcome { IsOutcome (try_choice (frame_of W.system S.meaning self.old) (place_at (closed_rules self.old.set) place) active number (below self.old.goals) (state_of S.meaning self.old) list.old (chosen W.system (rule_at (closed_rules self.old.set) place) place.place active (S.meaning self.old.store).pairs)) (state_of S.meaning self.new) result list.new }
        ensures frame { frame_of W.system S.meaning self.new ≡ frame_of W.system S.meaning self.old }
    {
        match self.weigh(active, place, choice) {
            Err(fault) => Answer::Refused(fault),
            Ok(weighed) => {
                // `as`: at most 1,024 facts are taken or removed, and at most 512 added, so `try_from` could not fail.
                let [first, second] = &self.scratch.taken;
                let took = [first.len() as u32, second.len() as u32];
                let added = self.scratch.body.count as u32;
                self.carry_out(place, choice, weighed.goes, list);
                Answer::Applied(Application {
                    rule: place.rule + 1,
                    active,
                    took,
                    removed: weighed.removed as u32,
                    added,
                })
            }
        }
    }
}
