//! A row of the caller's table, and where the chains of a table begin.
ghost use Rattle.std.specs.Prelude.{◌≡◌, ◌<◌, length};

use stores::Row;

/// How many chains there are of each way.
pub(crate) const CHAINS: usize = 64;

/// What the rows of one chain have in common: the label modulo 64, the kind, or the kind and the first word modulo 64.
#[derive(Clone, Copy)]
pub(crate) enum Way {
    ByLabel = 0,
    ByKind = 1,
    ByWord = 2,
}

/// A chain: its way, and its number among the chains of that way.
#[derive(Clone, Copy)]
pub(crate) struct Chain {
    pub(crate) way: Way,
    pub(crate) number: usize,
    ghost few: { number < 64 },
}

/// The ways, each once.
pub(crate) const WAYS: [Way; 3] = [Way::ByLabel, Way::ByKind, Way::ByWord];

/// A link to a row of the table, or to none.
// By hand: tried as `Option<u32>`, `next` took 19 and `next_with` 8 in 100 more instructions, as each step reads two places. What walks and sets
// links has options. They are numbers of rows, since the rows are the caller's and nothing is allocated.
// In this crate `as usize` widens a row's number, which is below 1,024, or a label, and so loses nothing: the library has no `From<u32>` for
// `usize`, and `try_from` would answer an error that cannot come.
#[derive(Clone, Copy)]
pub(crate) struct Link {
    pub(crate) number: u32,
}

/// The link to no row, as a table has at most so many.
pub(crate) const NO_ROW: Link = Link { number: 1_024 };

/// A row of the table, and for each way a link to the row after it on its chain, and a hint of the row before it. A free row's link by
/// label leads to the next free row. The row of a hint is looked at before it is used, so that none has to be right.
#[derive(Clone, Copy)]
pub struct ChainRow {
    pub(crate) row: Row,
    pub(crate) links: [Link; 3],
    pub(crate) hints: [Link; 3],
    ghost three: { length links ≡ 3 },
}

/// A row without a pair, of which a caller makes a table.
pub const FREE_ROW: ChainRow = ChainRow {
    row: None,
    links: [NO_ROW; 3],
    hints: [NO_ROW; 3],
};

/// The first row of each chain, a hint of its last row, the first free row, and how many rows have a pair.
#[derive(Clone, Copy)]
pub(crate) struct Heads {
    pub(crate) firsts: [[Link; CHAINS]; 3],
    pub(crate) lasts: [[Link; CHAINS]; 3],
    pub(crate) free: Option<u32>,
    pub(crate) count: usize,
}

/// Where a label stands on a chain, or would stand: the first row whose label is above another, and the row before it.
#[derive(Clone, Copy)]
pub(crate) struct Spot {
    pub(crate) before: Option<u32>,
    pub(crate) at: Option<u32>,
}

/// The rows of a table, and the heads of their chains.
// What its functions ask of it is no ghost field: while a row is put on its chains or taken off, the links of some ways alone are right. The
// pair of a row is asked beside its number, since rows change.
#[derive(Drop)]
pub(crate) struct LinkedTable<'a> {
    pub(crate) table: &'a mut [ChainRow],
    pub(crate) heads: Heads,
}
