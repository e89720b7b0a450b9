//! The place of a label on a chain.
ghost use Rattle.std.specs.Prelude.{◌≡◌, ◌<◌, ◌-◌, length, None, Some, slice_index_or};
ghost use Rattle.chains.specs.Links.{Place};
ghost use Rattle.chains.specs.Rows.{rows_of, chain_at, links_of, heads_of, Walkable};
ghost use Rattle.chains.specs.Acts.{UpTo, Within, Started, LedFrom, onward};

use crate::chain_types::{Chain, LinkedTable, Spot, Way};
use crate::ways::chain_at;
use facts::Fact;

impl LinkedTable<'_> {
    /// The row that a hint names, where it stands on the chain and its label is not above another; else none.
    fn hinted(&self, chain: Chain, above: u32, hint: Option<u32>) -> Option<u32>
        ensures { UpTo (chain_at chain.way) chain.number above (rows_of self.now.table.now) result }
    {
        let i = hint?;
        let pair = self.table.get(i as usize)?.row?;
        (pair.0 <= above && chain_at(chain.way, &pair).number == chain.number).then_some(i)
    }

    /// The row after one of a chain, or the chain's first row where none is named.
    fn after(&self, chain: Chain, before: Option<u32>) -> Option<u32>
        requires { Within before (length self.now.table.now) }
        ensures { result ≡ onward (links_of chain.way self.now.table.now) (heads_of chain.way self.now.heads) chain.number before }
    {
        let table = &*self.table;
        match before {
            Some(i) => table[i as usize].next(chain.way),
            None => self.heads.first(chain),
        }
    }

    /// The place of a label, by a walk along its chain from a place before it. As the labels of a chain rise, no row behind that place is looked
    /// at.
    // By hand: links lead nowhere twice since labels rise, which a loop has its measure for; an iterator over links would be a type with that invariant.
    fn walk(&self, chain: Chain, above: u32, from: Spot) -> Spot
        requires walkable { Walkable chain.way self.now.table.now self.now.heads }
        requires from { Started (chain_at chain.way) (rows_of self.now.table.now) (links_of chain.way self.now.table.now) (heads_of chain.way self.now.heads) chain.number above from.before from.at }
        ensures { Place (chain_at chain.way) (rows_of self.now.table.now) (links_of chain.way self.now.table.now) (heads_of chain.way self.now.heads) chain.number above result.before result.at }
    {
        let table = &*self.table;
        let Spot { mut before, mut at } = from;
        while let Some(i) = at
            && let Some((label, _)) = table[i as usize].row
            && label <= above
        {
            before = at;
            at = table[i as usize].next(chain.way);
        }
        Spot { before, at }
    }

    /// The first row of a chain whose label is above another, and the row before it: each is none where there is none.
    pub(crate) fn place(&self, chain: Chain, above: u32) -> Spot
        requires { Walkable chain.way self.now.table.now self.now.heads }
        ensures { Place (chain_at chain.way) (rows_of self.now.table.now) (links_of chain.way self.now.table.now) (heads_of chain.way self.now.heads) chain.number above result.before result.at }
    {
        let before = None;
        let at = self.heads.first(chain);
        self.walk(chain, above, Spot { before, at })
    }

    /// The same. The walk begins behind the row that a hint names, if that stands on the chain and its label is not above the other.
    pub(crate) fn place_by(&self, chain: Chain, above: u32, hint: Option<u32>) -> Spot
        requires { Walkable chain.way self.now.table.now self.now.heads }
        ensures { Place (chain_at chain.way) (rows_of self.now.table.now) (links_of chain.way self.now.table.now) (heads_of chain.way self.now.heads) chain.number above result.before result.at }
    {
        let before = self.hinted(chain, above, hint);
        let at = self.after(chain, before);
        self.walk(chain, above, Spot { before, at })
    }

    /// The row that the hint of a row names, where it has a pair and its link leads to the row; else none.
    fn led_from(&self, way: Way, i: u32) -> Option<u32>
        requires { i < length self.now.table.now }
        ensures { LedFrom i (rows_of self.now.table.now) (links_of way self.now.table.now) result }
    {
        let table = &*self.table;
        let before = table[i as usize].hint(way)?;
        let row = table.get(before as usize)?;
        row.row?;
        (row.next(way)? == i).then_some(before)
    }

    /// The place of a row on its chain: the row itself, and the row before it, by its hint or else by a walk.
    pub(crate) fn place_of(&self, chain: Chain, i: u32, pair: &(u32, Fact)) -> Spot
        requires walkable { Walkable chain.way self.now.table.now self.now.heads }
        requires row { slice_index_or (rows_of self.now.table.now) i None ≡ Some pair.now }
        requires chain { chain.number ≡ chain_at chain.way pair.now }
        ensures { Place (chain_at chain.way) (rows_of self.now.table.now) (links_of chain.way self.now.table.now) (heads_of chain.way self.now.heads) chain.number (pair.now.0 - 1) result.before result.at }
    {
        match self.led_from(chain.way, i) {
            Some(before) => Spot {
                before: Some(before),
                at: Some(i),
            },
            None => self.place(chain, pair.0 - 1),
        }
    }
}
