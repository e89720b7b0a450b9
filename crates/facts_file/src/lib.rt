//! The loader of `facts.csv`.
#![tactic(auto)]

mod fact_examples;
mod fact_rows;
mod fault_types;
mod faults;

pub use fact_examples::load_looped_line;
pub use fact_rows::{MOST_FACTS, load_facts, no_facts};
pub use fault_types::FactFault;
