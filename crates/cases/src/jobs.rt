//! Runs the stored jobs, each over a store of rows and over chains.
use chains::{Chains, FREE_ROW};
use printing::{CAPACITY, print_files};
use std::{fs, io};
use stores::Rows;

/// Runs the job of a folder over both stores, and prints what it prints.
pub fn run_job(rt: &HostRuntime, name: &str) -> io::Result<()> {
    let alloc = rt.alloc();
    let rules = fs::read(rt, format!(in alloc; "jobs/{name}-rules.csv")?.as_str()).ok();
    let facts = fs::read(rt, format!(in alloc; "jobs/{name}-facts.csv")?.as_str()).ok();
    println!(rt; "{name} over rows")?;
    let mut table = [None; CAPACITY];
    let rows = Rows::new(&mut table);
    print_files(rt, rows, rules.as_deref(), facts.as_deref())?;
    println!(rt; "{name} over chains")?;
    let mut table = [FREE_ROW; CAPACITY];
    let chains = Chains::new(&mut table);
    print_files(rt, chains, rules.as_deref(), facts.as_deref())?;
    Ok(())
}
