//! Why a file is not accepted.
use crate::line_type::Line;
use reader::Refusal;

/// The refusal of a file, and the row of the print.
#[derive(Drop)]
pub struct Refused {
    pub refusal: Refusal,
    pub line: Line,
}
