//! The worked examples, over each store.
use crate::jobs::{ENOUGH, expect_held, expect_posted, expect_quiet, fact, new_job};
use crate::recorder::new_recorder;
use crate::rule_sets::{looped_line, sweep};
use chains::{Chains, FREE_ROW};
use machine::End;
use std::process::Abort;
use stores::{Rows, Store};

// Two segments between points 10 and 20 and a launcher at point 10 leave both points, after 31 steps and three applications.
fn follow_line<S: Store + Drop>(rt: &impl Abort, store: S) {
    let mut job = new_job(rt, looped_line(rt), store);
    let mut list = [0; 512];
    let mut recorder = new_recorder();
    let survey = [
        fact(2, [10, 20, 500]),
        fact(2, [20, 10, 500]),
        fact(1, [10, 0, 0]),
    ];
    expect_posted(rt, &mut job, &survey);
    assert!(rt;
        matches!(
            job.run_with(ENOUGH, &mut list, &mut recorder),
            (End::Quiet, 31, 3)
        )
    );
    assert_eq!(rt;
        recorder.heard.as_slice(),
        [(2, 3, 1, 1), (2, 4, 1, 1), (1, 5, 1, 0)].as_slice()
    );
    expect_held(rt, &job, 2, 0);
    assert_eq!(rt; job.fact(4), Some(fact(1, [20, 0, 0])));
    assert_eq!(rt; job.fact(5), Some(fact(1, [10, 0, 0])));
}

#[test]
fn the_looped_line_over_rows(rt: HostRuntime) {
    let mut table = [None; 512];
    follow_line(&rt, Rows::new(&mut table));
}

#[test]
fn the_looped_line_over_chains(rt: HostRuntime) {
    let mut table = [FREE_ROW; 512];
    follow_line(&rt, Chains::new(&mut table));
}

// The fact under label 4 drops those under 1 and 3, and others come in their place.
fn sweep_below<S: Store + Drop>(rt: &impl Abort, store: S) {
    let mut job = new_job(rt, sweep(rt), store);
    let mut list = [9; 8];
    let found = [
        fact(3, [1, 3, 0]),
        fact(3, [1, 7, 0]),
        fact(3, [1, 4, 0]),
        fact(4, [1, 2, 5]),
    ];
    expect_posted(rt, &mut job, &found);
    expect_quiet(rt, &mut job, ENOUGH, &mut list, (13, 1));
    assert_eq!(rt; list, [4, 1, 3, 9, 9, 9, 9, 9]);
    expect_held(rt, &job, 3, 0);
    assert_eq!(rt; job.fact(2), Some(fact(3, [1, 7, 0])));
    assert_eq!(rt; job.fact(5), Some(fact(3, [2, 3, 0])));
    assert_eq!(rt; job.fact(6), Some(fact(3, [2, 4, 0])));
}

#[test]
fn a_dropall_over_rows(rt: HostRuntime) {
    let mut table = [None; 8];
    sweep_below(&rt, Rows::new(&mut table));
}

#[test]
fn a_dropall_over_chains(rt: HostRuntime) {
    let mut table = [FREE_ROW; 8];
    sweep_below(&rt, Chains::new(&mut table));
}
