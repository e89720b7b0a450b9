//! A job of two files: both are read, and the job is printed, or the row of the file that is refused.
ghost use Rattle.std.specs.Prelude.{◌≡◌, IfOk};
ghost use Rattle.std.specs.Option.{option_map};
ghost use Rattle.lists.specs.Held.{held};
ghost use Rattle.facts.specs.Lengths.{lengths};
ghost use Rattle.reader.specs.FileRules.{file_rules};
ghost use Rattle.printing.specs.Files.{job_files, job_read, read_end};

use crate::checks::{check_facts, check_rules};
use crate::driving::print_job;
use crate::refused_type::Refused;
use facts::{Fact, Lengths};
use lists::FixedList;
use machine::End;
use reader::{FileRules, MOST_FACTS, no_facts};
use std::io;
use stores::Store;

// Rules and facts. Not `read_job` of `runplan`, which opens the files and says why one is refused.
fn read_files(
    rules: Option<&[u8]>,
    facts: Option<&[u8]>,
    read: &mut FileRules<Lengths>,
    posted: &mut FixedList<Fact, MOST_FACTS>,
) -> Result<(), Refused>
    ensures { job_read result (file_rules read.new) (held posted.new) ≡ job_files lengths.valid (option_map (λ x. x.now) rules.entry) (option_map (λ x. x.now) facts.entry) }
{
    check_rules(rules, read)?;
    check_facts(facts, posted)
}

/// The job of two files over an empty store is printed as `print_job` prints it, or the row of the first file that is refused; none for a
/// file is a file that is not there. Answers why the job ended and how many steps were taken; none where there was no job.
pub fn print_files<S: Store + Drop, R: Print>(
    rt: &R,
    store: S,
    rules: Option<&[u8]>,
    facts: Option<&[u8]>,
) -> io::Result<Option<(End, u32)>>
    ensures { IfOk result (λ answer. answer ≡ read_end lengths (S.meaning store) (job_files lengths.valid (option_map (λ x. x.now) rules.entry) (option_map (λ x. x.now) facts.entry))) }
{
    let mut read = FileRules::new();
    let mut posted = no_facts();
    match read_files(rules, facts, &mut read, &mut posted) {
        Ok(()) => print_job(rt, read.close(), store, posted.as_slice()),
        Err(refused) => {
            rt.write_all(refused.line.text())?;
            Ok(None)
        }
    }
}
