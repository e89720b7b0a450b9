//! A closed set of rules. No rule can be written into it any more, since it has no function that does so.
ghost use Rattle.std.specs.Prelude.{◌≡◌, true};
ghost use Rattle.rules.specs.Tables.{finished};
ghost use Rattle.rules.specs.Closed.{stand, every_word, watched_kinds};

use crate::table_type::Table;
use facts::KINDS;
use std::marker::PhantomData;

/// How many kinds there are.
// `as`: the value of a constant calls no function, so neither `from` nor `into`, and nothing is cut off.
pub(crate) const KIND_COUNT: usize = KINDS as usize;

/// The rules of a job. Each has a `drop` head, and its letters, kinds and all heads are as the writer asks;
/// the watched kinds are exactly those that some all head names.
#[derive(Drop)]
pub struct ClosedSet<W> {
    pub(crate) system: PhantomData<W>,
    pub(crate) table: Table,
    pub(crate) watched: [bool; KIND_COUNT],
    ghost stands: { stand every_word (finished table) ≡ true },
    ghost watches: { watched ≡ watched_kinds (finished table) },
}
