//! A pair put into a table of linked rows, and one taken out.
ghost use Rattle.std.specs.Prelude.{◌≡◌, true, None, Ok, slice_index_or, Some};
ghost use Rattle.stores.specs.Store.{read};
ghost use Rattle.stores.specs.Piles.{sound_pair, after_put, after_take};
ghost use Rattle.stores.specs.Table.{pairs_of, pile_of};
ghost use Rattle.chains.specs.Rows.{rows_of, Chained};

use crate::chain_types::{LinkedTable, WAYS, Way};
use crate::ways::free_row;
use facts::Fact;

impl LinkedTable<'_> {
    /// Puts a pair with a new label into the first free row.
    pub(crate) fn add(&mut self, i: u32, pair: (u32, Fact))
        requires chained { Chained self.old.table.now self.old.heads }
        requires pair { sound_pair pair ≡ true }
        requires new { read pair.0 (pairs_of (rows_of self.old.table.now)) ≡ None }
        requires first { self.old.heads.free ≡ Some i }
        ensures chained { Chained self.new.table.now self.new.heads }
        ensures after { pile_of (rows_of self.new.table.now) ≡ after_put pair.0 pair.1 (pile_of (rows_of self.old.table.now)) (Ok tt) }
    {
        let next = self.table[i as usize].next(Way::ByLabel);
        for way in WAYS {
            self.link_in(way, i, &pair);
        }
        self.table[i as usize].row = Some(pair);
        self.heads.free = next;
        self.heads.count += 1;
    }

    /// Takes the pair of a row out. The row is then the first free one.
    pub(crate) fn remove(&mut self, i: u32, pair: &(u32, Fact))
        requires chained { Chained self.old.table.now self.old.heads }
        requires row { slice_index_or (rows_of self.old.table.now) i None ≡ Some pair.now }
        ensures chained { Chained self.new.table.now self.new.heads }
        ensures after { pile_of (rows_of self.new.table.now) ≡ after_take pair.now.0 (pile_of (rows_of self.old.table.now)) }
    {
        for way in WAYS {
            self.unlink(way, i, pair);
        }
        self.table[i as usize] = free_row(self.heads.free);
        self.heads.free = Some(i);
        self.heads.count -= 1;
    }
}
