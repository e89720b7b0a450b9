//! Facts are brought into a job: those that some all head names are stored at once, and the others wait.
ghost use Rattle.std.specs.Prelude.{◌≡◌, ◌+◌, ◌-◌, ◌<◌, ◌≤◌, true, ◌++◌, map, length, suc};
ghost use Rattle.rules.specs.Rules.{all};
ghost use Rattle.rules.specs.Sets.{closed_rules};
ghost use Rattle.stores.specs.Piles.{with_pairs};
ghost use Rattle.stores.specs.Store.{placed, placed_all, last_label};
ghost use Rattle.machine.specs.Machine.{seen, unseen, numbered, bring};
ghost use Rattle.machine.specs.declared.goal_types.Goal.TheVariants.{Wait};
ghost use Rattle.engine.specs.Bringing.{has_kind, looks_from};
ghost use Rattle.engine.specs.Jobs.{state_on};

use crate::job_type::Job;
use crate::stack::Stack;
use facts::{Fact, Words};
use machine::Goal;
use rules::ClosedSet;
use stores::Store;

// The fact is stored under the next label. There is room for it.
// By hand, here and below: `post` takes facts of any kind and refuses some; a type of facts of the 64 kinds would be a copy of them.
// It takes the store and the next label alone: the facts that an application brings stand in the job, so `bring_in` is lent the job's other parts.
fn put_next<S: Store>(store: &mut S, next: &mut u32, fact: Fact)
    requires kind { has_kind fact ≡ true }
    requires room { length (S.meaning store.old).pairs < (S.meaning store.old).capacity }
    requires low { 1 ≤ next.old }
    requires high { next.old ≤ last_label }
    ensures next { next.new ≡ suc next.old }
    ensures store { S.meaning store.new ≡ with_pairs (S.meaning store.old) (placed next.old fact (S.meaning store.old).pairs) }
{
    // Never refused, by what is required.
    let _stored = store.put(*next, fact);
    *next += 1;
}

// Those that are stored at once get the labels from the next one on.
// By hand, in this file: whether there is room, and labels are left, changes with each call and is mostly of several that are lent, so no
// type can have it. That the next label is at least 1 is in the job's type, and asked where the label is lent apart from the job.
fn store_watched<W: Words, S: Store>(
    set: &ClosedSet<W>,
    store: &mut S,
    next: &mut u32,
    facts: &[Fact],
)
    requires low { 1 ≤ next.old }
    requires kinds { all has_kind facts.now ≡ true }
    requires room { length (S.meaning store.old).pairs + length (seen (closed_rules set.now) facts.now) ≤ (S.meaning store.old).capacity }
    requires labels { next.old + length (seen (closed_rules set.now) facts.now) ≤ suc last_label }
    ensures next { next.new ≡ next.old + length (seen (closed_rules set.now) facts.now) }
    ensures store { S.meaning store.new ≡ with_pairs (S.meaning store.old) (placed_all (numbered next.old (seen (closed_rules set.now) facts.now)) (S.meaning store.old).pairs) }
{
    for fact in facts {
        if set.watches(fact) {
            put_next(store, next, *fact);
        }
    }
}

// The labels from a first one on, up to one, become goals, the first uppermost.
fn push_looks(goals: &mut Stack, first: u32, last: u32)
    requires labels { first ≤ last }
    requires room { length goals.old + (last - first) ≤ 512 }
    ensures { goals.new ≡ looks_from first (last - first) ++ goals.old }
{
    // By hand: the labels are numbers in a row, and stand in no list.
    for label in (first..last).rev() {
        goals.push(Goal::Look(label));
    }
}

// The facts that wait become goals, the first uppermost.
fn push_waits<W: Words>(set: &ClosedSet<W>, goals: &mut Stack, facts: &[Fact])
    requires kinds { all has_kind facts.now ≡ true }
    requires room { length goals.old + length (unseen (closed_rules set.now) facts.now) ≤ 512 }
    ensures { goals.new ≡ map Wait (unseen (closed_rules set.now) facts.now) ++ goals.old }
{
    for fact in facts.iter().rev() {
        if !set.watches(fact) {
            goals.push(Goal::Wait(*fact));
        }
    }
}

/// The facts are brought in. There is room for them.
pub(crate) fn bring_in<W: Words, S: Store>(
    set: &ClosedSet<W>,
    store: &mut S,
    next: &mut u32,
    goals: &mut Stack,
    facts: &[Fact],
)
    requires low { 1 ≤ next.old }
    requires kinds { all has_kind facts.now ≡ true }
    requires goals { length goals.old + length facts.now ≤ 512 }
    requires room { length (S.meaning store.old).pairs + length (seen (closed_rules set.now) facts.now) ≤ (S.meaning store.old).capacity }
    requires labels { next.old + length (seen (closed_rules set.now) facts.now) ≤ suc last_label }
    ensures state { state_on (S.meaning store.new) next.new goals.new ≡ bring (closed_rules set.now) facts.now (state_on (S.meaning store.old) next.old goals.old) }
    ensures capacity { (S.meaning store.new).capacity ≡ (S.meaning store.old).capacity }
    ensures low { 1 ≤ next.new }
{
    let first = *next;
    store_watched::<W, S>(set, store, next, facts);
    push_looks(goals, first, *next);
    push_waits::<W>(set, goals, facts);
}

impl<W: Words + Drop, S: Store + Drop> Job<W, S> {
    /// How many of the facts are stored at once.
    pub(crate) fn watched_count(&self, facts: &[Fact]) -> usize
        ensures { result ≡ length (seen (closed_rules self.now.set) facts.now) }
    {
        facts.iter().filter(|fact| self.set.watches(fact)).count()
    }

    /// The fact is stored under the next label. There is room for it.
    // By hand: a call may write to all that a `&mut` lends, so what stays is said here and in the job's other functions.
    pub(crate) fn store_next(&mut self, fact: Fact)
        requires kind { has_kind fact ≡ true }
        requires room { length (S.meaning self.old.store).pairs < (S.meaning self.old.store).capacity }
        requires labels { self.old.next ≤ last_label }
        ensures set { self.new.set ≡ self.old.set }
        ensures goals { self.new.goals ≡ self.old.goals }
        ensures next { self.new.next ≡ suc self.old.next }
        ensures store { S.meaning self.new.store ≡ with_pairs (S.meaning self.old.store) (placed self.old.next fact (S.meaning self.old.store).pairs) }
    {
        put_next(&mut self.store, &mut self.next, fact);
    }
}
