//! A job is driven to its end, and what it leaves is printed.
ghost use Rattle.std.specs.Prelude.{◌≡◌, List, IfOk};
ghost use Rattle.facts.specs.Lengths.{lengths};
ghost use Rattle.rules.specs.Sets.{closed_rules};
ghost use Rattle.machine.specs.Ledger.{Act, Reply, History, IsIdle};
ghost use Rattle.machine.specs.Machine.{run};
ghost use Rattle.engine.specs.Jobs.{state_of, frame_of, IsRun};
ghost use Rattle.printing.specs.Ends.{job_end};

use crate::lines::{apply_row, end_row, fact_row};
use engine::{Job, Listener};
use facts::{Fact, Lengths, Words};
use machine::{Application, End};
use rules::ClosedSet;
use std::io;
use stores::{LABELS, Store};

/// The capacity of the job's store.
pub const CAPACITY: usize = 512;

/// How many steps are taken at most.
pub const STEPS: u32 = 100_000;

/// Prints a row for each application that it hears of, until one cannot be printed.
#[derive(Drop)]
pub struct Printer<'a, R> {
    rt: &'a R,
    printed: io::Result<()>,
}

impl<'a, R: Print> Printer<'a, R> {
    pub fn new(rt: &'a R) -> Printer<'a, R> {
        Printer {
            rt,
            printed: Ok(()),
        }
    }

    /// Whether every row could be printed.
    pub fn printed(self) -> io::Result<()> {
        let Printer { printed, .. } = self;
        printed
    }
}

impl<R: Print> Listener for Printer<'_, R> {
    fn applied(&mut self, application: &Application) {
        if self.printed.is_ok() {
            self.printed = self.rt.write_all(apply_row(application).text());
        }
    }
}

/// Steps are taken as a run of 100,000 takes them. Where the end is quiet, no rule is ready.
pub fn drive<W: Words + Drop, S: Store + Drop, L: Listener>(
    job: &mut Job<W, S>,
    list: &mut [u32],
    listener: &mut L,
) -> (End, u32, u32)
    ensures run { IsRun (run (frame_of W.system S.meaning job.old) list.old 100000 (state_of S.meaning job.old)) (state_of S.meaning job.new) result.0 result.1 result.2 list.new }
    ensures quiet { (h : List (Act × Reply)) → History (frame_of W.system S.meaning job.old) h (state_of S.meaning job.old) → result.0 ≡ End.Quiet → IsIdle (frame_of W.system S.meaning job.old) (state_of S.meaning job.new) }
{
    job.run_with(STEPS, list, listener)
}

// Prints the stored facts by rising label.
fn print_facts<W: Words + Drop, S: Store + Drop, R: Print>(
    rt: &R,
    job: &Job<W, S>,
) -> io::Result<()> {
    let (_, left, _) = job.read(1);
    (1..=LABELS)
        .filter_map(|label| Some((label, job.fact(label)?)))
        .take(left)
        .try_for_each(|(label, fact)| rt.write_all(fact_row(label, &fact).text()))
}

/// A job with these rules on an empty store: the facts are posted, steps are taken, and each application, the facts left and the end
/// are printed. Answers why it ended and how many steps were taken; none where the store has facts or the post is refused.
pub fn print_job<S: Store + Drop, R: Print>(
    rt: &R,
    set: ClosedSet<Lengths>,
    store: S,
    facts: &[Fact],
) -> io::Result<Option<(End, u32)>>
    ensures { IfOk result (λ answer. answer ≡ job_end lengths (closed_rules set) (S.meaning store) facts.now) }
{
    let Ok(()) = Job::<Lengths, S>::may_create(&store) else {
        return Ok(None);
    };
    let mut job = Job::<Lengths, S>::create(set, store);
    let Ok(()) = job.post(facts) else {
        return Ok(None);
    };
    let mut list = [0; CAPACITY];
    let mut printer = Printer::new(rt);
    let (end, steps, _) = drive(&mut job, &mut list, &mut printer);
    printer.printed()?;
    print_facts(rt, &job)?;
    rt.write_all(end_row(end, steps).text())?;
    Ok(Some((end, steps)))
}
