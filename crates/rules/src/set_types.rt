//! A set of rules while it is written. Each stage has only the functions of the parts that may come next.
ghost use Rattle.std.specs.Prelude.{◌≡◌, ◌<◌, true};
ghost use Rattle.rules.specs.Tables.{finished, draft};
ghost use Rattle.rules.specs.Writing.{no_parts};
ghost use Rattle.rules.specs.Closed.{accepted, parts_verdict, stand, every_word};

use crate::table_type::Table;
use std::marker::PhantomData;

/// A set between two rules: a rule may be begun.
#[derive(Drop)]
pub struct OpenSet<W> {
    pub(crate) system: PhantomData<W>,
    pub(crate) table: Table,
    ghost unwritten: { draft table ≡ no_parts },
    ghost stands: { stand every_word (finished table) ≡ true },
}

/// A set with a rule whose body has not begun: heads and comparisons may be added.
#[derive(Drop)]
pub struct RuleHead<W> {
    pub(crate) system: PhantomData<W>,
    pub(crate) table: Table,
    ghost room: { table.rules.count < 32 },
    ghost stands: { stand every_word (finished table) ≡ true },
    ghost parts: { accepted (parts_verdict every_word (draft table)) ≡ true },
}

/// A set with a rule whose body has begun: facts that it gives may be added.
#[derive(Drop)]
pub struct RuleBody<W> {
    pub(crate) system: PhantomData<W>,
    pub(crate) table: Table,
    ghost room: { table.rules.count < 32 },
    ghost stands: { stand every_word (finished table) ≡ true },
    ghost parts: { accepted (parts_verdict every_word (draft table)) ≡ true },
}
