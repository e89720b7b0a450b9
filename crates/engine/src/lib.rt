//! The engine: jobs, in which rules are applied to facts until none has work left.
#![tactic(auto)]

mod act_types;
mod applying;
mod body;
mod body_type;
mod bringing;
mod fault_numbers;
mod fault_types;
mod found;
mod job;
mod job_type;
mod judging;
mod letters;
mod listening;
mod performing;
mod removing;
mod room;
mod scratch_type;
mod search;
mod stack;
mod stepping;
mod taking;
mod templates;
mod terms;

pub use act_types::{Act, Reply};
pub use fault_types::CreateFault;
pub use job_type::Job;
pub use listening::Listener;
pub use performing::perform;
