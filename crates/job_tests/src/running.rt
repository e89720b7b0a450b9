//! How runs end.
use crate::jobs::{
    ENOUGH, expect_held, expect_posted, expect_quiet, expect_step_refused, expect_stopped, fact,
    new_job,
};
use crate::rule_sets::no_rules;
use machine::End;
use std::process::Abort;
use stores::{Rows, Store};

// Of two facts the first is stored and done with, and the second finds the store full.
fn fill_one_row<S: Store + Drop>(rt: &impl Abort, store: S) {
    let mut job = new_job(rt, no_rules(), store);
    let mut list = [0; 1];
    expect_posted(rt, &mut job, &[fact(1, [1, 0, 0]), fact(1, [2, 0, 0])]);
    expect_stopped(rt, &mut job, &mut list, 10, 2);
    expect_held(rt, &job, 1, 1);
}

#[test]
fn one_row_stores_one_fact(rt: HostRuntime) {
    let mut table = [None; 1];
    fill_one_row(&rt, Rows::new(&mut table));
}

// 1,024 facts are stored, and one more finds the store full.
fn fill_all_rows<S: Store + Drop>(rt: &impl Abort, store: S) {
    let mut job = new_job(rt, no_rules(), store);
    let mut list = [0; 1_024];
    let facts = [fact(1, [7, 0, 0]); 512];
    for _ in 0..2 {
        expect_posted(rt, &mut job, &facts);
        expect_quiet(rt, &mut job, ENOUGH, &mut list, (1_024, 0));
    }
    expect_held(rt, &job, 1_024, 0);
    expect_posted(rt, &mut job, &facts[0..1]);
    expect_stopped(rt, &mut job, &mut list, 10, 0);
    expect_held(rt, &job, 1_024, 1);
}

#[test]
fn the_largest_table_stores_1024_facts(rt: HostRuntime) {
    let mut table = [None; 1_024];
    fill_all_rows(&rt, Rows::new(&mut table));
}

// A run that is allowed no step is quiet without goals, and spent with one.
fn run_within_budgets<S: Store + Drop>(rt: &impl Abort, store: S) {
    let mut job = new_job(rt, no_rules(), store);
    let mut list = [0; 2];
    expect_quiet(rt, &mut job, 0, &mut list, (0, 0));
    expect_posted(rt, &mut job, &[fact(1, [0, 0, 0])]);
    assert!(rt; matches!(job.run(0, &mut list), (End::Spent, 0, 0)));
    expect_quiet(rt, &mut job, u32::MAX, &mut list, (2, 0));
}

#[test]
fn budgets_are_kept(rt: HostRuntime) {
    let mut table = [None; 2];
    run_within_budgets(&rt, Rows::new(&mut table));
}

// A list with one entry too few is refused before anything else, also where there is no goal.
fn run_with_short_list<S: Store + Drop>(rt: &impl Abort, store: S) {
    let mut job = new_job(rt, no_rules(), store);
    let mut list = [9; 3];
    for goals in 0..2 {
        expect_step_refused(rt, &mut job, &mut list, 14);
        expect_stopped(rt, &mut job, &mut list, 14, 0);
        expect_held(rt, &job, 0, goals);
        expect_posted(rt, &mut job, &[fact(1, [0, 0, 0])]);
    }
    assert_eq!(rt; list, [9; 3]);
}

#[test]
fn a_short_list_is_refused(rt: HostRuntime) {
    let mut table = [None; 4];
    run_with_short_list(&rt, Rows::new(&mut table));
}
