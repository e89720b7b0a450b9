//! Acts on a new job.
use crate::jobs::{ENOUGH, fact};
use crate::rule_sets::no_rules;
use chains::{Chains, FREE_ROW};
use engine::{Act, CreateFault, Job, Reply, perform};
use facts::{Fact, Lengths};
use machine::{Answer, End};
use std::process::Abort;
use stores::{Rows, Store};

// What stands in the places for replies before there are any.
const NO_REPLY: Reply = Reply::Read(None, 7, 7);

fn fact_in(reply: Reply) -> Option<Fact> {
    match reply {
        Reply::Read(found, ..) => found,
        _ => None,
    }
}

// Two facts, a step and a run, and then the second fact is read.
fn post_and_run<S: Store + Drop>(rt: &impl Abort, store: S) {
    let facts = [fact(1, [5, 6, 7]), fact(2, [8, 9, 10])];
    let acts = [Act::Post(&facts), Act::Step, Act::Run(ENOUGH), Act::Read(2)];
    let mut replies = [NO_REPLY; 5];
    let mut list = [9; 4];
    let done = perform(no_rules(), store, &acts, &mut list, &mut replies);
    assert!(rt; matches!(done, Ok(4)));
    assert!(rt; matches!(replies[0], Reply::Posted(Ok(()))));
    assert!(rt; matches!(replies[1], Reply::Stepped(Answer::Stored)));
    assert!(rt; matches!(replies[2], Reply::Ran(End::Quiet, 3, 0)));
    assert!(rt; matches!(replies[3], Reply::Read(Some(_), 2, 0)));
    assert_eq!(rt; fact_in(replies[3]), Some(fact(2, [8, 9, 10])));
    assert!(rt; matches!(replies[4], Reply::Read(None, 7, 7)));
    assert_eq!(rt; list, [9; 4]);
}

#[test]
fn acts_over_rows(rt: HostRuntime) {
    let mut table = [None; 4];
    post_and_run(&rt, Rows::new(&mut table));
}

#[test]
fn acts_over_chains(rt: HostRuntime) {
    let mut table = [FREE_ROW; 4];
    post_and_run(&rt, Chains::new(&mut table));
}

// No job is created on a store that has a fact, and nothing is written.
fn act_on_used_store<S: Store + Drop>(rt: &impl Abort, mut store: S) {
    let mut replies = [NO_REPLY; 1];
    let mut list = [9; 4];
    assert!(rt; store.put(1, fact(1, [0, 0, 0])).is_ok());
    assert!(rt;
        matches!(
            Job::<Lengths, S>::may_create(&store),
            Err(CreateFault::Facts)
        )
    );
    let done = perform(no_rules(), store, &[Act::Step], &mut list, &mut replies);
    assert!(rt; matches!(done, Err(CreateFault::Facts)));
    assert!(rt; matches!(replies[0], Reply::Read(None, 7, 7)));
    assert_eq!(rt; list, [9; 4]);
}

#[test]
fn a_store_with_facts_is_refused(rt: HostRuntime) {
    let mut table = [None; 4];
    act_on_used_store(&rt, Rows::new(&mut table));
}
