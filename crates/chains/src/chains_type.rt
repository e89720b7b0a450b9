//! A store of linked rows.
ghost use Rattle.chains.specs.Rows.{Chained};

use crate::chain_types::LinkedTable;

/// A store over the rows of a caller's table. Each row that has a pair stands on three chains: by the label, by the kind, and by the kind and
/// the first word. The free rows follow one another.
#[derive(Drop)]
pub struct Chains<'a> {
    pub(crate) linked: LinkedTable<'a>,
    ghost chained: { Chained linked.table.now linked.heads },
}
