//! Runs the stored cases: each file of facts of the index, and what the loader answers; and each job of the list, over every store.
#![tactic(auto)]

mod jobs;

use facts::{Fact, Lengths};
use jobs::run_job;
use reader::{Layer, Refusal, load_facts, no_facts};
use std::{fs, io};

/// Files of at most so many facts are printed with their facts.
const FEW: usize = 4;

// No Display, since the type is another crate's and the words are of this print alone.
fn layer_name(layer: Layer) -> &'static str {
    match layer {
        Layer::Reader => "reader",
        Layer::RuleSet => "rule set",
        Layer::Job => "job",
    }
}

fn print_fact<R: Print>(rt: &R, fact: &Fact) -> io::Result<()> {
    let Fact {
        kind,
        words: [first, second, third],
    } = *fact;
    println!(rt; "  {kind},{first},{second},{third}")
}

fn print_facts<R: Print>(rt: &R, name: &str, facts: &[Fact]) -> io::Result<()> {
    let count = facts.len();
    println!(rt; "{name}: {count} facts")?;
    if count <= FEW {
        for fact in facts {
            print_fact(rt, fact)?;
        }
    }
    Ok(())
}

fn print_refusal<R: Print>(rt: &R, name: &str, refusal: &Refusal) -> io::Result<()> {
    let Refusal {
        number,
        row,
        field,
        layer,
    } = *refusal;
    let layer = layer_name(layer);
    println!(rt; "{name}: refused {number}, row {row}, field {field}, {layer}")
}

fn run_case<R: Print>(rt: &R, name: &str, file: Option<&[u8]>) -> io::Result<()> {
    let mut facts = no_facts();
    match load_facts::<Lengths>(file, &mut facts) {
        Ok(()) => print_facts(rt, name, facts.as_slice()),
        Err(refusal) => print_refusal(rt, name, &refusal),
    }
}

fn read_and_run(rt: &HostRuntime, name: &str) -> io::Result<()> {
    let read = fs::read(rt, name).ok();
    run_case(rt, name, read.as_deref())
}

fn main(rt: HostRuntime) -> io::Result<()> {
    let index = fs::read_to_string(&rt, "index.txt")?;
    for name in index.as_str().lines() {
        read_and_run(&rt, name)?;
    }
    let jobs = fs::read_to_string(&rt, "jobs.txt")?;
    for name in jobs.as_str().lines() {
        run_job(&rt, name)?;
    }
    Ok(())
}
