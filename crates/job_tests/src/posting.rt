//! What a post takes, and what it turns down.
use crate::jobs::{expect_held, expect_post_refused, expect_posted, fact, new_job};
use crate::rule_sets::no_rules;
use std::process::Abort;
use stores::{Rows, Store};

// A new job has room for 512 goals, and a post that brings more is refused whole.
fn fill_stack<S: Store + Drop>(rt: &impl Abort, store: S) {
    let mut job = new_job(rt, no_rules(), store);
    let facts = [fact(1, [0, 0, 0]); 513];
    expect_post_refused(rt, &mut job, &facts, (11, 0));
    expect_held(rt, &job, 0, 0);
    expect_posted(rt, &mut job, &facts[0..512]);
    expect_held(rt, &job, 0, 512);
    expect_post_refused(rt, &mut job, &facts[0..1], (11, 0));
    expect_held(rt, &job, 0, 512);
}

#[test]
fn the_stack_has_room_for_512_facts(rt: HostRuntime) {
    let mut table = [None; 1];
    fill_stack(&rt, Rows::new(&mut table));
}

// A kind above 63 or an invalid word is refused, and its fact named.
fn post_at_bounds<S: Store + Drop>(rt: &impl Abort, store: S) {
    let mut job = new_job(rt, no_rules(), store);
    let last = fact(63, [-2_147_483_648, 0, 2_147_483_647]);
    let above = fact(64, [0, 0, 0]);
    let invalid = fact(63, [0, 0, 2_147_483_648]);
    expect_posted(rt, &mut job, &[last]);
    expect_post_refused(rt, &mut job, &[above], (1, 1));
    expect_post_refused(rt, &mut job, &[last, invalid], (2, 2));
    expect_held(rt, &job, 0, 1);
}

#[test]
fn kinds_and_words_are_judged(rt: HostRuntime) {
    let mut table = [None; 4];
    post_at_bounds(&rt, Rows::new(&mut table));
}
