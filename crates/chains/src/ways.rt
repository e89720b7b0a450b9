//! The three ways in which rows are linked: which chain a pair stands on, and the links and heads of a way.
ghost use Rattle.std.specs.Prelude.{◌≡◌, ◌%◌, None, slice_index_or};
ghost use Rattle.chains.specs.Rows.{magnitude, number, named, link_to, link, heads_of, chain_of, chain_at};
ghost use Rattle.chains.specs.Acts.{free_row};

use crate::chain_types::{CHAINS, Chain, ChainRow, Heads, Link, NO_ROW, Way};
use facts::Fact;

impl Way {
    /// The place of the way among the three.
    // By hand: `From` for `usize` would be this same cast in more lines.
    pub(crate) fn number(self) -> usize
        ensures { result ≡ number self }
    {
        self as usize
    }
}

impl Link {
    /// The row that the link leads to, or none.
    pub(crate) fn row(self) -> Option<u32>
        ensures { result ≡ named self }
    {
        (self.number < NO_ROW.number).then_some(self.number)
    }

    /// The link to a row, or to none.
    pub(crate) fn to(row: Option<u32>) -> Link
        ensures { result ≡ link_to row }
    {
        row.map_or(NO_ROW, |number| Link { number })
    }
}

impl ChainRow {
    /// The row after this one on its chain.
    pub(crate) fn next(&self, way: Way) -> Option<u32>
        ensures { result ≡ link way self.now }
    {
        self.links[way.number()].row()
    }

    /// A hint of the row before this one on its chain.
    // Not one function with `next`, nor `last` below with `first`: nothing is promised of a hint.
    pub(crate) fn hint(&self, way: Way) -> Option<u32> {
        self.hints[way.number()].row()
    }
}

impl Heads {
    /// The first row of a chain.
    pub(crate) fn first(&self, chain: Chain) -> Option<u32>
        ensures { result ≡ slice_index_or (heads_of chain.way self.now) chain.number None }
    {
        self.firsts[chain.way.number()][chain.number].row()
    }

    /// A hint of the last row of a chain.
    pub(crate) fn last(&self, chain: Chain) -> Option<u32> {
        self.lasts[chain.way.number()][chain.number].row()
    }
}

/// What is left of the size of a word, whichever its sign, modulo the number of chains.
fn rest_of(word: i64) -> usize
    ensures { result ≡ magnitude word % 64 }
{
    // By hand: what is left is below 64, and `try_from` would answer an error that cannot come.
    (word.unsigned_abs() % CHAINS as u64) as usize
}

/// The chain of a way, by a label, a kind and a first word.
pub(crate) fn chain_of(way: Way, label: u32, kind: u8, word: i64) -> Chain
    ensures way { result.way ≡ way }
    ensures number { result.number ≡ chain_of way label kind word }
{
    let number = match way {
        Way::ByLabel => label as usize % CHAINS,
        Way::ByKind => usize::from(kind) % CHAINS,
        Way::ByWord => (usize::from(kind) + rest_of(word)) % CHAINS,
    };
    Chain { way, number }
}

/// The chain of a way on which a pair stands.
pub(crate) fn chain_at(way: Way, pair: &(u32, Fact)) -> Chain
    ensures way { result.way ≡ way }
    ensures number { result.number ≡ chain_at way pair.now }
{
    let (label, fact) = pair;
    chain_of(way, *label, fact.kind, fact.words[0])
}

/// A row without a pair, and the next free row.
pub(crate) fn free_row(next: Option<u32>) -> ChainRow
    ensures { result ≡ free_row next }
{
    ChainRow {
        row: None,
        links: [Link::to(next), NO_ROW, NO_ROW],
        hints: [NO_ROW; 3],
    }
}
