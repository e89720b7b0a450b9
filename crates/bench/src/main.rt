//! `bench STORE RULES FACTS`: runs a job over the store that is named, `rows` or `chains`, and prints what `runplan` prints for the job. It is
//! run by hand, to count the instructions of one job over each store.
#![tactic(auto)]

ghost use Rattle.std.specs.Prelude.{◌≡◌};
ghost use Rattle.bench.specs.declared.Failed.TheVariants.{Output};

use chains::{Chains, FREE_ROW};
use printing::{CAPACITY, print_files};
use std::process::ExitCode;
use std::{env, fs, io};
use stores::Rows;

/// Why the program ends with status 1.
#[derive(Drop)]
enum Failed {
    Usage,
    Output(io::Error),
}

impl From<io::Error> for Failed {
    ghost from_gives = { λ e f. f ≡ Output e };

    fn from(error: io::Error) -> Failed {
        Failed::Output(error)
    }
}

// The job of two files over the store that is named.
// Two arms, as `store_trial` has two functions: one for both would need a trait for a blank row and `new`.
fn run_over(rt: &HostRuntime, store: &str, rules: &str, facts: &str) -> Result<(), Failed> {
    let rules = fs::read(rt, rules).ok();
    let facts = fs::read(rt, facts).ok();
    match store {
        "rows" => {
            let mut table = [None; CAPACITY];
            let rows = Rows::new(&mut table);
            print_files(rt, rows, rules.as_deref(), facts.as_deref())?;
        }
        "chains" => {
            let mut table = [FREE_ROW; CAPACITY];
            let chains = Chains::new(&mut table);
            print_files(rt, chains, rules.as_deref(), facts.as_deref())?;
        }
        _ => return Err(Failed::Usage),
    }
    Ok(())
}

fn run(rt: &HostRuntime) -> Result<(), Failed> {
    let mut arguments = env::args(rt)?.skip(1);
    let store = arguments.next().ok_or(Failed::Usage)?;
    let rules = arguments.next().ok_or(Failed::Usage)?;
    let facts = arguments.next().ok_or(Failed::Usage)?;
    run_over(rt, store.as_str(), rules.as_str(), facts.as_str())
}

fn main(rt: HostRuntime) -> ExitCode {
    match run(&rt) {
        Ok(()) => ExitCode::SUCCESS,
        Err(Failed::Output(_)) => ExitCode::FAILURE,
        Err(Failed::Usage) => {
            let _said = eprintln!(rt; "usage: bench rows RULES FACTS or bench chains RULES FACTS");
            ExitCode::FAILURE
        }
    }
}
