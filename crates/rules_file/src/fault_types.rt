//! What is wrong with a row of rules.
use rows::{FieldFault, Place};
use rules::RuleFault;

/// What is wrong with a row of rules.
#[derive(Clone, Copy, Debug, PartialEq, Eq)]
pub enum RowFault {
    /// The bytes begin no row, or the row has another number of fields.
    Malformed(u32),
    /// A field cannot be read as what it must be, or is filled where it must be empty.
    Field(FieldFault),
    /// The rule set turns a field down, or a whole row, which is field 0.
    Set(RuleFault, Place),
}
