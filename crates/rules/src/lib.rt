//! Rules: their parts, and the set in which they are written.
#![tactic(auto)]

mod closed;
mod closed_type;
mod fault_numbers;
mod judging;
mod ordering;
mod rule_types;
mod set_types;
mod stages;
mod table;
mod table_type;
mod writing;

pub use closed_type::ClosedSet;
pub use judging::judge_kind;
pub use rule_types::{
    ALLS, AllRecord, Argument, BodyPart, BodySort, Comparison, GiveAll, HeadPart, HeadPlace,
    HeadSort, LETTERS, Operand, Pattern, RULES, RuleFault, RuleRecord, SINGLES, Template, Term,
};
pub use set_types::{OpenSet, RuleBody, RuleHead};
