//! The fields of a row of rules.
ghost use Rattle.std.specs.Prelude.{◌≡◌, length};

use rows::Place;

/// How many fields a row of rules has.
pub(crate) const WIDTH: usize = 6;

/// A row of rules: its number, and what stands in each of its fields.
#[derive(Clone, Copy)]
pub(crate) struct RuleRow<'a> {
    pub row: u32,
    pub texts: [&'a [u8]; WIDTH],
    ghost six: { length texts ≡ 6 },
}

/// What stands in a field of a row, and where.
#[derive(Clone, Copy)]
pub(crate) struct Cell<'a> {
    pub text: &'a [u8],
    pub place: Place,
}
