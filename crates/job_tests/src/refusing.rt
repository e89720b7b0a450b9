//! What a refused application leaves.
use crate::jobs::{expect_held, expect_posted, expect_step_refused, expect_stopped, fact, new_job};
use crate::rule_sets::overflow;
use machine::Answer;
use std::process::Abort;
use stores::{Rows, Store};

// The step that would apply the rule is refused again and again, and leaves the fact, its goal and the list.
fn apply_without_value<S: Store + Drop>(rt: &impl Abort, store: S) {
    let mut job = new_job(rt, overflow(rt), store);
    let mut list = [9; 4];
    expect_posted(rt, &mut job, &[fact(1, [1, 0, 0])]);
    assert!(rt; matches!(job.step(&mut list), Answer::Stored));
    for _ in 0..2 {
        expect_step_refused(rt, &mut job, &mut list, 13);
        expect_stopped(rt, &mut job, &mut list, 13, 0);
        expect_held(rt, &job, 1, 1);
        assert_eq!(rt; job.fact(1), Some(fact(1, [1, 0, 0])));
    }
    assert_eq!(rt; list, [9; 4]);
}

#[test]
fn a_body_without_value_changes_nothing(rt: HostRuntime) {
    let mut table = [None; 4];
    apply_without_value(&rt, Rows::new(&mut table));
}
