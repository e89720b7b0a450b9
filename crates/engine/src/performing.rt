//! A list of acts on a new job. The contract of `perform` has all that is promised of jobs, with nothing asked of the caller.
ghost use Rattle.std.specs.Prelude.{◌≡◌, ◌≢◌, ◌↔◌, min, length, take, drop, IfOk, OnErr, Ok, Err};
ghost use Rattle.rules.specs.Sets.{closed_rules};
ghost use Rattle.machine.specs.Ledger.{reply, after_act};
ghost use Rattle.engine.specs.Acts.{act_with, list_after, told_of, with_acts, begun_with, replies_of, Kept};
ghost use Rattle.engine.specs.Jobs.{state_of, frame_of, frame_on};

use crate::act_types::{Act, Reply};
use crate::fault_types::CreateFault;
use crate::job_type::Job;
use facts::Words;
use rules::ClosedSet;
use stores::Store;

fn do_act<W: Words + Drop, S: Store + Drop>(
    job: &mut Job<W, S>,
    act: &Act<'_>,
    list: &mut [u32],
) -> Reply
    ensures reply { result ≡ told_of (reply (frame_of W.system S.meaning job.old) (act_with list.old act.now) (state_of S.meaning job.old)) }
    ensures state { state_of S.meaning job.new ≡ after_act (frame_of W.system S.meaning job.old) (act_with list.old act.now) (state_of S.meaning job.old) }
    ensures list { list.new ≡ list_after (frame_of W.system S.meaning job.old) (act_with list.old act.now) (state_of S.meaning job.old) list.old }
    ensures frame { frame_of W.system S.meaning job.new ≡ frame_of W.system S.meaning job.old }
{
    match act {
        Act::Post(facts) => Reply::Posted(job.post(facts)),
        Act::Step => Reply::Stepped(job.step(list)),
        Act::Run(budget) => {
            let (end, steps, applications) = job.run(*budget, list);
            Reply::Ran(end, steps, applications)
        }
        Act::Read(label) => {
            let (fact, facts, goals) = job.read(*label);
            Reply::Read(fact, facts, goals)
        }
    }
}

/// Creates a job with a closed set on a store and does these acts, as many as there is place for the replies. Answers how many, or
/// refuses where the store has facts, and then changes nothing. The replies are the machine's, and after the last act all that is
/// promised of jobs holds.
pub fn perform<W: Words + Drop, S: Store + Drop>(
    set: ClosedSet<W>,
    store: S,
    acts: &[Act<'_>],
    list: &mut [u32],
    replies: &mut [Reply],
) -> Result<usize, CreateFault>
    ensures count { IfOk result (λ n. n ≡ min (length acts.now) (length replies.old)) }
    ensures replies { IfOk result (λ n. take n replies.new ≡ replies_of (with_acts (frame_on W.system (closed_rules set) (S.meaning store)) (take n acts.now) (begun_with list.old))) }
    ensures rest { IfOk result (λ n. drop n replies.new ≡ drop n replies.old) }
    ensures list { IfOk result (λ n. list.new ≡ (with_acts (frame_on W.system (closed_rules set) (S.meaning store)) (take n acts.now) (begun_with list.old)).list) }
    ensures promises { IfOk result (λ n. Kept (frame_on W.system (closed_rules set) (S.meaning store)) (with_acts (frame_on W.system (closed_rules set) (S.meaning store)) (take n acts.now) (begun_with list.old)).history (with_acts (frame_on W.system (closed_rules set) (S.meaning store)) (take n acts.now) (begun_with list.old)).state) }
    ensures refused { result ≡ Err CreateFault.Facts ↔ (length (S.meaning store).pairs ≢ 0) }
    ensures refused_replies { OnErr result (replies.new ≡ replies.old) }
    ensures refused_list { OnErr result (list.new ≡ list.old) }
{
    Job::<W, S>::may_create(&store)?;
    let mut job = Job::<W, S>::create(set, store);
    let count = acts.len().min(replies.len());
    // By hand: a `zip` with `iter_mut` leaves the values unknown, as in `fill_words`; over `iter_mut` alone the acts would be indexed.
    for (done, act) in acts[..count].iter().enumerate() {
        replies[done] = do_act(&mut job, act, list);
    }
    Ok(count)
}
