//! Why a file is refused, and a field that cannot be read.
use crate::field_types::Place;

/// The part that refuses a file.
#[derive(Clone, Copy, Debug, PartialEq, Eq)]
pub enum Layer {
    Reader,
    RuleSet,
    Job,
}

/// Why a file is refused: the number, the row and the field that it names, and the layer that refuses.
/// Field 0 is a whole row, and row 0 a whole file.
// The number is no enum: the formats print it, and the enums of the cases are the faults of the two files.
#[derive(Clone, Copy, Debug, PartialEq, Eq)]
pub struct Refusal {
    pub number: u8,
    pub row: u32,
    pub field: u32,
    pub layer: Layer,
}

/// A field that cannot be read as what it must be.
#[derive(Clone, Copy, Debug, PartialEq, Eq)]
pub struct FieldFault {
    pub place: Place,
}
