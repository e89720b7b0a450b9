//! `runplan RULES FACTS`: reads both files, applies the rules to the facts, and prints each application, the facts left and the end.
//! `runplan --check RULES FACTS`: reads both files and runs nothing. `runplan --check FACTS` reads a file of facts alone.
#![tactic(auto)]

mod input;
mod telling;

ghost use Rattle.std.specs.Prelude.{◌≡◌};
ghost use Rattle.runplan.specs.declared.Failed.TheVariants.{Output};

use facts::{Fact, Lengths};
use input::{BUFFER, PATH, argument, argument_count, read_file};
use lists::FixedList;
use machine::End;
use printing::{CAPACITY, Refused, check_facts, check_rules, print_job};
use reader::{FileRules, MOST_FACTS, no_facts};
use std::fs::Files;
use std::io;
use std::process::ExitCode;
use std::rt::Env;
use stores::Rows;
use telling::{Source, explain_count, explain_end, explain_refusal};

/// Why the program ends with status 1.
#[derive(Drop)]
enum Failed {
    Usage,
    Refused,
    NotQuiet,
    Output(io::Error),
}

/// Where the two files are.
#[derive(Clone, Copy)]
struct Paths<'a> {
    rules: &'a str,
    facts: &'a str,
}

// The two files of a call without arguments.
const HERE: Paths<'static> = Paths {
    rules: "rules.csv",
    facts: "facts.csv",
};

impl From<io::Error> for Failed {
    ghost from_gives = { λ e f. f ≡ Output e };

    fn from(error: io::Error) -> Failed {
        Failed::Output(error)
    }
}

// Puts the file to the check; where it is refused, its row is printed, and a sentence says why.
fn read<R: Files + Print + Eprint, C: FnOnce(Option<&[u8]>) -> Result<(), Refused>>(
    rt: &R,
    source: Source,
    path: &str,
    check: C,
) -> Result<(), Failed>
    requires { C.IsAlwaysCallable check }
{
    let mut buffer = [0; BUFFER];
    let file = read_file(rt, path, &mut buffer);
    match check(file) {
        Ok(()) => Ok(()),
        Err(Refused { refusal, line }) => {
            rt.write_all(line.text())?;
            explain_refusal(rt, source, path, file.is_some(), &refusal)?;
            Err(Failed::Refused)
        }
    }
}

fn read_facts<R: Files + Print + Eprint>(
    rt: &R,
    path: &str,
    facts: &mut FixedList<Fact, MOST_FACTS>,
) -> Result<(), Failed> {
    read(rt, Source::Facts, path, |file| check_facts(file, facts))
}

// The rules file is read to its end before the facts file is opened.
fn read_job<R: Files + Print + Eprint>(
    rt: &R,
    paths: Paths<'_>,
    rules: &mut FileRules<Lengths>,
    facts: &mut FixedList<Fact, MOST_FACTS>,
) -> Result<(), Failed> {
    read(
        rt,
        Source::Rules,
        paths.rules,
        |file| check_rules(file, rules),
    )?;
    read_facts(rt, paths.facts, facts)
}

fn check<R: Files + Print + Eprint>(rt: &R, paths: Paths<'_>) -> Result<(), Failed> {
    let mut rules = FileRules::new();
    let mut survey = no_facts();
    read_job(rt, paths, &mut rules, &mut survey)?;
    let set = rules.close();
    let rule_count = set.rule_count();
    let heads = set.head_count();
    let fact_count = survey.len();
    let Paths { rules, facts } = paths;
    eprintln!(rt; "{rules}: {rule_count} rules with {heads} heads; {facts}: {fact_count} facts")?;
    Ok(())
}

fn check_survey<R: Files + Print + Eprint>(rt: &R, path: &str) -> Result<(), Failed> {
    let mut facts = no_facts();
    read_facts(rt, path, &mut facts)?;
    explain_count(rt, path, facts.len())?;
    Ok(())
}

// The job is printed, and a sentence says why it did not end quiet.
fn plan<R: Files + Print + Eprint>(rt: &R, paths: Paths<'_>) -> Result<(), Failed> {
    let mut rules = FileRules::new();
    let mut facts = no_facts();
    read_job(rt, paths, &mut rules, &mut facts)?;
    let mut rows = [None; CAPACITY];
    let store = Rows::new(&mut rows);
    match print_job(rt, rules.close(), store, facts.as_slice())? {
        Some((End::Quiet, _)) => Ok(()),
        Some((end, steps)) => {
            explain_end(rt, end, steps)?;
            Err(Failed::NotQuiet)
        }
        None => Err(Failed::Refused),
    }
}

// Does what the arguments say; arguments of another form print how the program is called.
fn run<R: Env + Files + Print + Eprint>(rt: &R) -> Result<(), Failed> {
    // Three buffers and no array of them: taken apart under `&mut`, it is not covered by the borrow checker.
    let mut first = [0; PATH];
    let mut second = [0; PATH];
    let mut third = [0; PATH];
    let one = argument(rt, 1, &mut first);
    let two = argument(rt, 2, &mut second);
    let three = argument(rt, 3, &mut third);
    match (argument_count(rt, 4), one, two, three) {
        (0, ..) => plan(rt, HERE),
        (2, Some("--check"), Some(facts), _) => check_survey(rt, facts),
        (3, Some("--check"), Some(rules), Some(facts)) => check(rt, Paths { rules, facts }),
        (2, Some(rules), Some(facts), _) => plan(rt, Paths { rules, facts }),
        _ => {
            eprintln!(rt;
                "usage: runplan RULES FACTS, runplan --check RULES FACTS or runplan --check FACTS"
            )?;
            Err(Failed::Usage)
        }
    }
}

fn main(rt: HostRuntime) -> ExitCode {
    match run(&rt) {
        Ok(()) => ExitCode::SUCCESS,
        Err(_) => ExitCode::FAILURE,
    }
}
