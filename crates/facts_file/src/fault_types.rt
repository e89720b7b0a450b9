//! What is wrong with a row of facts.
use rows::{FieldFault, Place};

/// What is wrong with a row of facts.
#[derive(Clone, Copy, Debug, PartialEq, Eq)]
pub enum FactFault {
    /// The bytes begin no row, or the row has another number of fields.
    Malformed(u32),
    /// The row is one too many.
    TooMany(u32),
    /// A field is no number.
    Field(FieldFault),
    /// A number is no kind.
    Kind(Place),
    /// A number is no word of the word system.
    Word(Place),
}
