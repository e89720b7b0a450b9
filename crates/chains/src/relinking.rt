//! A row put on its chain of one way, and one taken off.
ghost use Rattle.std.specs.Prelude.{◌≡◌, ◌<◌, ◌≤◌, length, true, slice_index_or, slice_set, Some, None};
ghost use Rattle.stores.specs.Table.{absent};
ghost use Rattle.chains.specs.Rows.{rows_of, LinkedWay, Walkable};
ghost use Rattle.chains.specs.Acts.{Within, Pointed, Leaves, KeepsLinks};

use crate::chain_types::{Chain, Link, LinkedTable, Way};
use crate::ways::chain_at;
use facts::Fact;

impl LinkedTable<'_> {
    /// Another row after the one that stands before, or at the head of the chain where none stands before.
    fn point(&mut self, chain: Chain, before: Option<u32>, i: Option<u32>)
        requires within { Within before (length self.old.table.now) }
        requires fits { Within i 1024 }
        ensures { Pointed chain.way chain.number before i self.old.table.now self.new.table.now self.old.heads self.new.heads }
    {
        match before {
            Some(before) => self.table[before as usize].links[chain.way.number()] = Link::to(i),
            None => self.heads.firsts[chain.way.number()][chain.number] = Link::to(i),
        }
    }

    /// Sets a hint: of the row before another, or of the last row of the chain where there is no other.
    // Not one function with `point`: a link is promised to be as it was set, and of hints nothing is promised.
    fn set_hint(&mut self, chain: Chain, after: Option<u32>, i: Option<u32>)
        requires { Within after (length self.old.table.now) }
        ensures { KeepsLinks self.old.table.now self.new.table.now self.old.heads self.new.heads }
    {
        match after {
            Some(after) => self.table[after as usize].hints[chain.way.number()] = Link::to(i),
            None => self.heads.lasts[chain.way.number()][chain.number] = Link::to(i),
        }
    }

    /// Puts a free row on the chain on which a pair will stand, at the place of its label.
    pub(crate) fn link_in(&mut self, way: Way, i: u32, pair: &(u32, Fact))
        requires walkable { Walkable way self.old.table.now self.old.heads }
        requires within { i < length self.old.table.now }
        requires free { slice_index_or (rows_of self.old.table.now) i None ≡ None }
        requires new { absent pair.now.0 (rows_of self.old.table.now) ≡ true }
        requires one { 1 ≤ pair.now.0 }
        ensures linked { LinkedWay way (slice_set (rows_of self.old.table.now) i (Some pair.now)) self.new.table.now self.new.heads }
        ensures leaves { Leaves way i self.old.table.now self.new.table.now self.old.heads self.new.heads }
    {
        let chain = chain_at(way, pair);
        let spot = self.place_by(chain, pair.0, self.heads.last(chain));
        self.table[i as usize].links[way.number()] = Link::to(spot.at);
        self.point(chain, spot.before, Some(i));
        self.set_hint(chain, Some(i), spot.before);
        self.set_hint(chain, spot.at, Some(i));
    }

    /// Takes a row off the chain on which its pair stands.
    pub(crate) fn unlink(&mut self, way: Way, i: u32, pair: &(u32, Fact))
        requires walkable { Walkable way self.old.table.now self.old.heads }
        requires row { slice_index_or (rows_of self.old.table.now) i None ≡ Some pair.now }
        ensures linked { LinkedWay way (slice_set (rows_of self.old.table.now) i None) self.new.table.now self.new.heads }
        ensures leaves { Leaves way i self.old.table.now self.new.table.now self.old.heads self.new.heads }
    {
        let chain = chain_at(way, pair);
        let before = self.place_of(chain, i, pair).before;
        let after = self.table[i as usize].next(way);
        self.point(chain, before, after);
        self.set_hint(chain, after, before);
    }
}
