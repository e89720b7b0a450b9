//! Jobs of the tests: each function does something with a job and asserts what comes of it.
// The job and the list stay two parameters: tests call the job itself in between, and one list is too short on purpose.
use engine::Job;
use facts::{Fact, Lengths, WORDS};
use machine::{Answer, End};
use rules::ClosedSet;
use std::process::Abort;
use stores::Store;

/// How many steps are allowed where they are to be enough.
pub(crate) const ENOUGH: u32 = 100_000;

pub(crate) fn fact(kind: u8, words: [i64; WORDS]) -> Fact {
    Fact { kind, words }
}

/// A job with these rules on an empty store.
pub(crate) fn new_job<S: Store + Drop>(
    rt: &impl Abort,
    set: ClosedSet<Lengths>,
    store: S,
) -> Job<Lengths, S> {
    assert!(rt; Job::<Lengths, S>::may_create(&store).is_ok());
    Job::create(set, store)
}

pub(crate) fn expect_posted<S: Store + Drop>(
    rt: &impl Abort,
    job: &mut Job<Lengths, S>,
    facts: &[Fact],
) {
    assert!(rt; job.post(facts).is_ok());
}

/// A post is refused by a number, and a fact is named.
pub(crate) fn expect_post_refused<S: Store + Drop>(
    rt: &impl Abort,
    job: &mut Job<Lengths, S>,
    facts: &[Fact],
    wanted: (u8, usize),
) {
    let refused = job.post(facts).err();
    assert_eq!(rt;
        refused.map(|fault| (fault.number(), fault.named_fact())),
        Some(wanted)
    );
}

/// A step is refused by a number.
pub(crate) fn expect_step_refused<S: Store + Drop>(
    rt: &impl Abort,
    job: &mut Job<Lengths, S>,
    list: &mut [u32],
    number: u8,
) {
    let refused = match job.step(list) {
        Answer::Refused(fault) => Some(fault.number()),
        _ => None,
    };
    assert_eq!(rt; refused, Some(number));
}

/// A run of so many steps at most ends quiet, after so many steps and applications.
pub(crate) fn expect_quiet<S: Store + Drop>(
    rt: &impl Abort,
    job: &mut Job<Lengths, S>,
    budget: u32,
    list: &mut [u32],
    wanted: (u32, u32),
) {
    let (end, steps, applications) = job.run(budget, list);
    assert!(rt; matches!(end, End::Quiet));
    assert_eq!(rt; (steps, applications), wanted);
}

/// A run with steps enough is stopped by the refusal of a number, after so many steps and no application.
pub(crate) fn expect_stopped<S: Store + Drop>(
    rt: &impl Abort,
    job: &mut Job<Lengths, S>,
    list: &mut [u32],
    number: u8,
    steps: u32,
) {
    let stopped = match job.run(ENOUGH, list) {
        (End::Stopped(fault), taken, 0) => Some((fault.number(), taken)),
        _ => None,
    };
    assert_eq!(rt; stopped, Some((number, steps)));
}

/// So many facts are stored, and there are so many goals.
pub(crate) fn expect_held<S: Store + Drop>(
    rt: &impl Abort,
    job: &Job<Lengths, S>,
    facts: usize,
    goals: usize,
) {
    let (_, stored, waiting) = job.read(1);
    assert_eq!(rt; (stored, waiting), (facts, goals));
}
