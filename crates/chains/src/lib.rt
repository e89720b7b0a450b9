//! A store whose rows are linked by label, by kind, and by kind and first word.
#![tactic(auto)]

mod chain_types;
mod chains_making;
mod chains_store;
mod chains_type;
mod changing;
mod places;
mod relinking;
mod ways;

pub use chain_types::{ChainRow, FREE_ROW};
pub use chains_type::Chains;
