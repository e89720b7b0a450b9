//! What is done with a job.
ghost use Rattle.std.specs.Prelude.{◌≡◌, [], length, Ok};
ghost use Rattle.rules.specs.Sets.{closed_rules};
ghost use Rattle.stores.specs.Store.{read};
ghost use Rattle.machine.specs.Machine.{empty_state, shortage, post_answer, after_post};
ghost use Rattle.machine.specs.Ledger.{History, posting, reading, to_post, to_read};
ghost use Rattle.engine.specs.Calls.{Upholds};
ghost use Rattle.engine.specs.Room.{room};
ghost use Rattle.engine.specs.Jobs.{state_of, frame_of, create_answer};

use crate::bringing::bring_in;
use crate::fault_types::CreateFault;
use crate::job_type::Job;
use crate::judging::judge_facts;
use crate::room::{Used, room_in_job};
use crate::scratch_type::Scratch;
use crate::stack::{GOALS, Stack};
use facts::{Fact, Words};
use machine::{PostFault, Shortage};
use rules::ClosedSet;
use stores::Store;

impl<W: Words + Drop, S: Store + Drop> Job<W, S> {
    /// Whether a job can be created on the store: 16 where it has facts.
    pub fn may_create(store: &S) -> Result<(), CreateFault>
        ensures { result ≡ create_answer (S.meaning store.now).pairs }
    {
        if store.count() == 0 {
            Ok(())
        } else {
            Err(CreateFault::Facts)
        }
    }

    /// A job with a closed set of rules, on an empty store.
    pub fn create(set: ClosedSet<W>, store: S) -> Job<W, S>
        requires { create_answer (S.meaning store).pairs ≡ Ok tt }
        ensures state { state_of S.meaning result ≡ empty_state }
        ensures history { History (frame_of W.system S.meaning result) [] (state_of S.meaning result) }
        ensures frame { frame_of W.system S.meaning result ≡ record { system = W.system; rules = closed_rules set; capacity = (S.meaning store).capacity } }
    {
        Job {
            set,
            store,
            next: 1,
            goals: Stack::new(),
            scratch: Scratch::blank(),
        }
    }

    // How much of the job is used.
    pub(crate) fn used(&self) -> Used
        ensures goals { result.goals ≡ length self.now.goals }
        ensures facts { result.facts ≡ length (S.meaning self.now.store).pairs }
        ensures next { result.next ≡ self.now.next }
        ensures capacity { result.capacity ≡ (S.meaning self.now.store).capacity }
    {
        Used {
            goals: self.goals.len(),
            facts: self.store.count(),
            next: self.next,
            capacity: self.store.capacity(),
        }
    }

    // Whether there is room to bring the facts in, or what there is too little of.
    fn room_for(&self, facts: &[Fact]) -> Result<(), Shortage>
        ensures { result ≡ room (shortage (frame_of W.system S.meaning self.now) facts.now (state_of S.meaning self.now)) }
    {
        let used = self.used();
        if facts.len() > GOALS {
            return Err(Shortage::Goals);
        }
        room_in_job(&used, facts.len(), self.watched_count(facts))
    }

    // A post. It returns at several places, and `post` at one, so that what a post upholds is proved once.
    fn do_post(&mut self, facts: &[Fact]) -> Result<(), PostFault>
        ensures answer { result ≡ post_answer (frame_of W.system S.meaning self.old) facts.now (state_of S.meaning self.old) }
        ensures state { state_of S.meaning self.new ≡ after_post (frame_of W.system S.meaning self.old) facts.now (state_of S.meaning self.old) result }
        ensures frame { frame_of W.system S.meaning self.new ≡ frame_of W.system S.meaning self.old }
    {
        judge_facts::<W>(facts)?;
        self.room_for(facts)?;
        bring_in::<W, S>(
            &self.set,
            &mut self.store,
            &mut self.next,
            &mut self.goals,
            facts,
        );
        Ok(())
    }

    /// Facts are posted, all or none.
    pub fn post(&mut self, facts: &[Fact]) -> Result<(), PostFault>
        ensures answer { result ≡ post_answer (frame_of W.system S.meaning self.old) facts.now (state_of S.meaning self.old) }
        ensures state { state_of S.meaning self.new ≡ after_post (frame_of W.system S.meaning self.old) facts.now (state_of S.meaning self.old) result }
        ensures frame { frame_of W.system S.meaning self.new ≡ frame_of W.system S.meaning self.old }
        ensures upheld { Upholds (frame_of W.system S.meaning self.old) (state_of S.meaning self.old) (posting facts.now) (to_post result) (state_of S.meaning self.new) }
    {
        self.do_post(facts)
    }

    /// The fact of a label, or none.
    pub fn fact(&self, label: u32) -> Option<Fact>
        ensures { result ≡ read label (S.meaning self.now.store).pairs }
    {
        self.store.read(label)
    }

    /// The fact of a label, or none, how many facts are stored, and how many goals there are.
    pub fn read(&self, label: u32) -> (Option<Fact>, usize, usize)
        ensures fact { result.0 ≡ read label (S.meaning self.now.store).pairs }
        ensures facts { result.1 ≡ length (S.meaning self.now.store).pairs }
        ensures goals { result.2 ≡ length (state_of S.meaning self.now).goals }
        ensures upheld { Upholds (frame_of W.system S.meaning self.now) (state_of S.meaning self.now) (reading label) (to_read result.0 result.1 result.2) (state_of S.meaning self.now) }
    {
        (self.store.read(label), self.store.count(), self.goals.len())
    }
}
