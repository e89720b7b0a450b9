//! A step: the top goal is worked on. A run: steps one after the other.
ghost use Rattle.std.specs.Prelude.{◌≡◌, ◌≤◌, true, [], length, Some};
ghost use Rattle.rules.specs.Closed.{head, place_seen};
ghost use Rattle.rules.specs.Sets.{closed_rules};
ghost use Rattle.stores.specs.Store.{read};
ghost use Rattle.machine.specs.Machine.{step, run, goal_step, wait_step, look_step, try_step, try_head, applications_of};
ghost use Rattle.machine.specs.declared.goal_types.Goal.TheVariants.{Wait, Look, Try};
ghost use Rattle.engine.specs.Bringing.{has_kind};
ghost use Rattle.engine.specs.Goals.{top_of, below};
ghost use Rattle.machine.specs.Ledger.{stepping, running, to_step, to_run};
ghost use Rattle.engine.specs.Calls.{Upholds};
ghost use Rattle.engine.specs.Jobs.{state_of, frame_of, IsOutcome, IsRun};

use crate::found::rule_of;
use crate::job_type::Job;
use crate::listening::{Listener, Silent};
use crate::room::room_in_store;
use crate::search::search;
use facts::{Fact, Words};
use machine::{Answer, End, Goal, StepFault};
use rules::HeadPlace;
use stores::Store;

// How many applications an answer tells of.
fn applications_of(answer: Answer) -> u32
    ensures { result ≡ applications_of answer }
{
    u32::from(matches!(answer, Answer::Applied(_)))
}

fn tell<L: Listener>(listener: &mut L, answer: &Answer) {
    if let Answer::Applied(application) = answer {
        listener.applied(application);
    }
}

impl<W: Words + Drop, S: Store + Drop> Job<W, S> {
    // By hand, here and below: `frame` says what a step leaves as it was, which no type says of a value before and after a call.

    // The waiting fact on top is stored under the next label, which is tried from the first head on.
    fn store_waiting(&mut self, fact: Fact) -> Answer
        requires kind { has_kind fact ≡ true }
        requires top { top_of self.old.goals ≡ Some (Wait fact) }
        ensures state { state_of S.meaning self.new ≡ (wait_step (frame_of W.system S.meaning self.old) fact (below self.old.goals) (state_of S.meaning self.old) []).state }
        ensures answer { result ≡ (wait_step (frame_of W.system S.meaning self.old) fact (below self.old.goals) (state_of S.meaning self.old) []).answer }
        ensures frame { frame_of W.system S.meaning self.new ≡ frame_of W.system S.meaning self.old }
    {
        if let Err(short) = room_in_store(&self.used(), 1) {
            return Answer::Refused(StepFault::from(short));
        }
        let label = self.next;
        self.store_next(fact);
        self.goals.replace_top(Goal::Try(label, 1));
        Answer::Stored
    }

    // The stored fact of the label is tried at a head: the rule is applied, or the next head is to be tried.
    // By hand: `wide` ties the caller's list to the job's store, so neither's type can have it; each function down to `apply` asks it.
    // By hand, here and below: `top` says what the job's top goal is at the call, so no type of a label and a number can have it.
    fn try_at(
        &mut self,
        label: u32,
        number: u8,
        fact: &Fact,
        place: HeadPlace,
        list: &mut [u32],
    ) -> Answer
        requires held { read label (S.meaning self.old.store).pairs ≡ Some fact.now }
        requires place { place_seen (closed_rules self.old.set) (Some place) ≡ head (closed_rules self.old.set) number }
        requires few { number ≤ 128 }
        requires top { top_of self.old.goals ≡ Some (Try label number) }
        requires wide { (S.meaning self.old.store).capacity ≤ length list.old }
        ensures outcome { IsOutcome (try_head (frame_of W.system S.meaning self.old) label number (below self.old.goals) (state_of S.meaning self.old) list.old (place_seen (closed_rules self.old.set) (Some place))) (state_of S.meaning self.new) result list.new }
        ensures frame { frame_of W.system S.meaning self.new ≡ frame_of W.system S.meaning self.old }
    {
        let rule = rule_of(&self.set, place);
        let found = search::<W, S>(&self.store, rule, usize::from(place.place), label, fact);
        match found {
            Some(choice) => self.apply(label, number, place, &choice, list),
            None => {
                self.goals.replace_top(Goal::Try(label, number + 1));
                Answer::Passed
            }
        }
    }

    // The stored fact of the label is to be tried from the first head on; the goal of one that is gone is dropped.
    fn look_at(&mut self, label: u32) -> Answer
        requires top { top_of self.old.goals ≡ Some (Look label) }
        ensures state { state_of S.meaning self.new ≡ (look_step label (below self.old.goals) (state_of S.meaning self.old) []).state }
        ensures answer { result ≡ (look_step label (below self.old.goals) (state_of S.meaning self.old) []).answer }
        ensures frame { frame_of W.system S.meaning self.new ≡ frame_of W.system S.meaning self.old }
    {
        match self.store.read(label) {
            Some(_) => {
                self.goals.replace_top(Goal::Try(label, 1));
                Answer::Woken
            }
            None => {
                self.goals.pop();
                Answer::Dropped
            }
        }
    }

    // The stored fact of the label is tried at the head of this number; the goal of one that is gone, or of a number behind the
    // last head, is dropped.
    fn try_label(&mut self, label: u32, number: u8, list: &mut [u32]) -> Answer
        requires top { top_of self.old.goals ≡ Some (Try label number) }
        requires wide { (S.meaning self.old.store).capacity ≤ length list.old }
        ensures outcome { IsOutcome (try_step (frame_of W.system S.meaning self.old) label number (below self.old.goals) (state_of S.meaning self.old) list.old) (state_of S.meaning self.new) result list.new }
        ensures frame { frame_of W.system S.meaning self.new ≡ frame_of W.system S.meaning self.old }
    {
        let Some(fact) = self.store.read(label) else {
            self.goals.pop();
            return Answer::Dropped;
        };
        let Some(place) = self.set.head(usize::from(number)) else {
            self.goals.pop();
            return Answer::Dropped;
        };
        self.try_at(label, number, &fact, place, list)
    }

    // A step, where the list is long enough.
    fn work(&mut self, list: &mut [u32]) -> Answer
        requires { (S.meaning self.old.store).capacity ≤ length list.old }
        ensures outcome { IsOutcome (goal_step (frame_of W.system S.meaning self.old) (state_of S.meaning self.old) list.old self.old.goals) (state_of S.meaning self.new) result list.new }
        ensures frame { frame_of W.system S.meaning self.new ≡ frame_of W.system S.meaning self.old }
    {
        let Some(goal) = self.goals.top() else {
            return Answer::Quiet;
        };
        match goal {
            Goal::Wait(fact) => self.store_waiting(fact),
            Goal::Look(label) => self.look_at(label),
            Goal::Try(label, number) => self.try_label(label, number, list),
        }
    }

    // A step. It returns at two places, and `step` at one, so that what a step upholds is proved once.
    fn do_step(&mut self, list: &mut [u32]) -> Answer
        ensures outcome { IsOutcome (step (frame_of W.system S.meaning self.old) list.old (state_of S.meaning self.old)) (state_of S.meaning self.new) result list.new }
        ensures frame { frame_of W.system S.meaning self.new ≡ frame_of W.system S.meaning self.old }
    {
        if list.len() < self.store.capacity() {
            return Answer::Refused(StepFault::List);
        }
        self.work(list)
    }

    // A run. It returns at several places, and `run_with` at one, so that what a run upholds is proved once.
    fn do_run<L: Listener>(
        &mut self,
        budget: u32,
        list: &mut [u32],
        listener: &mut L,
    ) -> (End, u32, u32)
        ensures outcome { IsRun (run (frame_of W.system S.meaning self.old) list.old budget (state_of S.meaning self.old)) (state_of S.meaning self.new) result.0 result.1 result.2 list.new }
        ensures frame { frame_of W.system S.meaning self.new ≡ frame_of W.system S.meaning self.old }
    {
        if list.len() < self.store.capacity() {
            return (End::Stopped(StepFault::List), 0, 0);
        }
        // By hand: a `for` over the budget would ask at two places whether a goal is left, as that is asked behind the last step too.
        let mut steps = 0;
        let mut applications = 0;
        loop {
            if self.goals.len() == 0 {
                return (End::Quiet, steps, applications);
            }
            if steps == budget {
                return (End::Spent, steps, applications);
            }
            let answer = self.do_step(list);
            if let Answer::Refused(fault) = answer {
                return (End::Stopped(fault), steps, applications);
            }
            tell(listener, &answer);
            applications += applications_of(answer);
            steps += 1;
        }
    }

    /// The top goal is worked on. After an application the caller's list begins with its labels.
    pub fn step(&mut self, list: &mut [u32]) -> Answer
        ensures outcome { IsOutcome (step (frame_of W.system S.meaning self.old) list.old (state_of S.meaning self.old)) (state_of S.meaning self.new) result list.new }
        ensures frame { frame_of W.system S.meaning self.new ≡ frame_of W.system S.meaning self.old }
        ensures upheld { Upholds (frame_of W.system S.meaning self.old) (state_of S.meaning self.old) (stepping list.old) (to_step result list.new) (state_of S.meaning self.new) }
    {
        self.do_step(list)
    }

    /// Steps are taken until no goal is left, as many as are allowed are taken, or one is refused, and the listener hears of each
    /// application. Answers why it ended, how many steps were taken, and how many of them applied a rule.
    pub fn run_with<L: Listener>(
        &mut self,
        budget: u32,
        list: &mut [u32],
        listener: &mut L,
    ) -> (End, u32, u32)
        ensures outcome { IsRun (run (frame_of W.system S.meaning self.old) list.old budget (state_of S.meaning self.old)) (state_of S.meaning self.new) result.0 result.1 result.2 list.new }
        ensures frame { frame_of W.system S.meaning self.new ≡ frame_of W.system S.meaning self.old }
        ensures upheld { Upholds (frame_of W.system S.meaning self.old) (state_of S.meaning self.old) (running list.old budget) (to_run result.0 result.1 result.2 list.new) (state_of S.meaning self.new) }
    {
        self.do_run(budget, list, listener)
    }

    /// The same, where nobody listens.
    pub fn run(&mut self, budget: u32, list: &mut [u32]) -> (End, u32, u32)
        ensures outcome { IsRun (run (frame_of W.system S.meaning self.old) list.old budget (state_of S.meaning self.old)) (state_of S.meaning self.new) result.0 result.1 result.2 list.new }
        ensures frame { frame_of W.system S.meaning self.new ≡ frame_of W.system S.meaning self.old }
        ensures upheld { Upholds (frame_of W.system S.meaning self.old) (state_of S.meaning self.old) (running list.old budget) (to_run result.0 result.1 result.2 list.new) (state_of S.meaning self.new) }
    {
        self.run_with(budget, list, &mut Silent)
    }
}
