//! A field of a row: a part of the file's bytes, sorted by what it looks like, with its place.

/// Where a field stands. Rows and fields count from 1.
#[derive(Clone, Copy, Debug, PartialEq, Eq)]
pub struct Place {
    pub row: u32,
    pub field: u32,
}

/// A field, with the part of the file's bytes that it is and its place.
#[derive(Clone, Copy, Debug, PartialEq, Eq)]
pub enum Field<'a> {
    /// An optional minus and one to ten digits.
    Number(&'a [u8], Place),
    /// Any other text, none among it.
    Word(&'a [u8], Place),
    /// One letter from A to Z.
    Letter(&'a [u8], Place),
    /// What stands between quotes. A doubled quote in it is still doubled.
    Quoted(&'a [u8], Place),
}

/// A field as RFC 4180 has it: as it stands, or between quotes.
#[derive(Clone, Copy)]
pub(crate) enum Part<'a> {
    Bare(&'a [u8]),
    Quoted(&'a [u8]),
}

/// What follows a field: the file ends, another field comes, or another row.
#[derive(Clone, Copy)]
pub(crate) enum After<'a> {
    FileEnd,
    Field(&'a [u8]),
    Row(&'a [u8]),
}
