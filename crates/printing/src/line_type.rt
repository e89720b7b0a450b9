//! A line of the print, in a buffer of its own.
ghost use Rattle.std.specs.Prelude.{◌≤◌, length};

use arrayvec::ArrayString;

/// How many bytes a line has place for: a word of at most eight, five commas and numbers of at most twenty, and CRLF.
pub const LINE: usize = 128;

/// How many fields a row has behind its word.
pub const FIELDS: usize = 5;

#[derive(Drop)]
pub struct Line {
    pub(crate) text: ArrayString<LINE>,
    ghost within: { length text.bytes ≤ 128 },
}
