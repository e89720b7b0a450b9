//! What the program prints, row by row: what the check of a file comes to, and how a job is driven to its end.
#![tactic(auto)]

mod checks;
mod driving;
mod job_files;
mod line_type;
mod lines;
mod refused_type;

pub use checks::{check_facts, check_rules};
pub use driving::{CAPACITY, Printer, STEPS, drive, print_job};
pub use job_files::print_files;
pub use line_type::Line;
pub use lines::{apply_row, end_row, fact_row, refuse_row};
pub use refused_type::Refused;
