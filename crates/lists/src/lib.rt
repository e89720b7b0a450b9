//! Lists of bounded length, each in an array of its own.
#![tactic(auto)]

mod fixed_list;
mod fixed_list_type;

pub use fixed_list_type::FixedList;
