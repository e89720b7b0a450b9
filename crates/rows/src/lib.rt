//! Rows and fields of a file by RFC 4180, the numbers in them, and what a refusal names.
#![tactic(auto)]

mod csv_rows;
mod field_types;
mod fields;
mod number_text;
mod refusal_types;

pub use csv_rows::{read_field, read_row, row_count, row_of_width};
pub use field_types::{Field, Place};
pub use fields::{MOST_BYTES, file_bytes, readable, whole_file};
pub use number_text::read_number;
pub use refusal_types::{FieldFault, Layer, Refusal};
