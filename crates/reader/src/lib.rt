//! The loader of `rules.csv`, and what the loader of `facts.csv` and the rows below them offer.
#![tactic(auto)]

mod file_rules_type;
mod row_types;
mod rule_cells;
mod rule_examples;
mod rule_fields;
mod rule_parts;
mod rule_rows;
mod rule_stages;
mod spelling;
mod stage_type;

pub use facts_file::{FactFault, MOST_FACTS, load_facts, load_looped_line, no_facts};
pub use file_rules_type::FileRules;
pub use rows::{
    Field, FieldFault, Layer, MOST_BYTES, Place, Refusal, read_field, read_number, read_row,
    row_count,
};
pub use rule_examples::load_looped_rules;
pub use rule_rows::load_rules;
pub use terms::{Mark, read_argument, read_operand, read_term};
