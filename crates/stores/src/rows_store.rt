//! The functions of a store of rows.
ghost use Rattle.std.specs.Prelude.{◌≡◌, ◌≤◌, ◌<◌, ◌+◌, ◌-◌, Bool, Some, None, map, length, drop, slice_index_or};
ghost use Rattle.std.specs.Fn.{ComputesKey};
ghost use Rattle.stores.specs.Store.{of_kind_with, pair_answer};
ghost use Rattle.stores.specs.Table.{pairs_of, pile_of};
ghost use Rattle.stores.specs.Scans.{rank, first_label, fact_under, with_row, without_row};

use crate::fault_types::StoreFault;
use crate::row_types::Row;
use crate::rows_type::{PackedRows, Rows};
use crate::store_trait::Store;
use facts::{Fact, KINDS};

/// The last label: a label is a number from 1 to this one.
pub const LABELS: u32 = 1_000_000;

/// Whether the fact has the first word and the kind.
pub fn is_asked_for(fact: &Fact, kind: u8, word: i64) -> bool
    ensures { result ≡ of_kind_with kind word fact.now }
{
    fact.words[0] == word && fact.kind == kind
}

/// Whether a pair can be put, by its kind and its label, whatever a store holds.
pub fn check_pair(label: u32, fact: &Fact) -> Result<(), StoreFault>
    ensures { result ≡ pair_answer label fact.now }
{
    if fact.kind >= KINDS {
        return Err(StoreFault::Kind);
    }
    if label == 0 || label > LABELS {
        return Err(StoreFault::Label);
    }
    Ok(())
}

/// The label of the first row with a fact that passes a test.
fn first_that<T: Fn(&Fact) -> bool>(rows: &[Row], test: T) -> Option<u32>
    requires { T.IsAlwaysCallable test }
    ensures { (p : Fact → Bool) → ComputesKey T.FnMut p test → result ≡ first_label p rows.now }
{
    // Not over `flatten`: tried, a job of 500 facts took 7 in 100 more instructions.
    let row = rows
        .iter()
        .find(|row| matches!(row, Some((_, fact)) if test(fact)))?;
    let (label, _) = (*row)?;
    Some(label)
}

// No methods of `Rows`: while a row is put in or taken out, its ghost fields do not hold.
impl PackedRows<'_> {
    /// One pair more, in the row of this number. The pairs from there on move up by a row.
    fn insert(&mut self, i: usize, label: u32, fact: Fact)
        requires { (i ≤ self.old.count) × (self.old.count < length self.old.table.now) }
        ensures rows { self.new.table.now ≡ with_row i (Some (label, fact)) self.old.count self.old.table.now }
        ensures count { self.new.count ≡ self.old.count + 1 }
    {
        self.table[i..=self.count].rotate_right(1);
        self.table[i] = Some((label, fact));
        self.count += 1;
    }

    /// The pair of a row goes, and those behind it move down by a row.
    fn remove(&mut self, i: usize)
        requires { (i < self.old.count) × (self.old.count ≤ length self.old.table.now) }
        ensures rows { self.new.table.now ≡ without_row i self.old.count self.old.table.now }
        ensures count { self.new.count ≡ self.old.count - 1 }
    {
        self.table[i..self.count].rotate_left(1);
        self.count -= 1;
        self.table[self.count] = None;
    }
}

impl Rows<'_> {
    /// The rows that have a pair.
    fn used(&self) -> &[Row]
        ensures { result.now ≡ map Some (pairs_of self.now.packed.table.now) }
    {
        let PackedRows { table, count } = &self.packed;
        let rows = &table[..];
        &rows[..*count]
    }

    /// How many pairs have a label below the bound. They stand first.
    fn rank(&self, bound: u64) -> usize
        ensures rank { result ≡ rank bound (pairs_of self.now.packed.table.now) }
        ensures within { result ≤ length (pairs_of self.now.packed.table.now) }
    {
        let used = self.used();
        used.partition_point(|row| row.is_some_and(|(label, _)| u64::from(label) < bound))
    }

    /// The rows of the pairs with a label above this one.
    fn behind(&self, above: u32) -> &[Row]
        ensures { result.now ≡ map Some (drop (rank (above + 1) (pairs_of self.now.packed.table.now)) (pairs_of self.now.packed.table.now)) }
    {
        let start = self.rank(u64::from(above) + 1);
        &self.used()[start..]
    }

    /// The fact in the row of this number, if the row has the label.
    fn fact_at(&self, i: usize, label: u32) -> Option<Fact>
        ensures { result ≡ fact_under label (slice_index_or self.now.packed.table.now i None) }
    {
        let (held, fact) = (*self.packed.table.get(i)?)?;
        (held == label).then_some(fact)
    }
}

impl Store for Rows<'_> {
    ghost meaning = { λ s. pile_of s.packed.table.now };

    ghost owed = { λ s. s.kept };

    fn capacity(&self) -> usize {
        self.packed.table.len()
    }

    fn count(&self) -> usize {
        self.packed.count
    }

    fn read(&self, label: u32) -> Option<Fact> {
        self.fact_at(self.rank(u64::from(label)), label)
    }

    fn next(&self, kind: u8, above: u32) -> Option<u32> {
        first_that(self.behind(above), |fact| fact.kind == kind)
    }

    fn next_with(&self, kind: u8, word: i64, above: u32) -> Option<u32> {
        first_that(self.behind(above), |fact| is_asked_for(fact, kind, word))
    }

    fn put(&mut self, label: u32, fact: Fact) -> Result<(), StoreFault> {
        check_pair(label, &fact)?;
        let i = self.rank(u64::from(label));
        if self.fact_at(i, label).is_some() {
            self.packed.table[i] = Some((label, fact));
        } else if self.count() < self.capacity() {
            self.packed.insert(i, label, fact);
        } else {
            return Err(StoreFault::Full);
        }
        Ok(())
    }

    fn take(&mut self, label: u32) -> Option<Fact> {
        let i = self.rank(u64::from(label));
        let fact = self.fact_at(i, label)?;
        self.packed.remove(i);
        Some(fact)
    }
}

#[cfg(test)]
mod tests {
    use super::*;
    use crate::fault_types::TableFault;
    use crate::stored_map::{put_and_read, take_and_read, visit};

    #[test]
    fn tables_of_no_row_and_of_one_too_many(rt: HostRuntime) {
        let none: [Row; 0] = [];
        let many = [None; 1_025];
        assert!(rt; Rows::check(&none).is_err());
        assert!(rt; Rows::check(&many).is_err());
        assert_eq!(rt; TableFault::Size.number(), 15);
    }

    #[test]
    fn a_new_store_forgets_what_the_table_held(rt: HostRuntime) {
        let fact = Fact {
            kind: 2,
            words: [10, 20, 500],
        };
        let mut table = [Some((4, fact)); 3];
        let rows = Rows::new(&mut table);
        assert_eq!(rt; rows.count(), 0);
        assert_eq!(rt; rows.next(2, 0), None);
    }

    #[test]
    fn labels_of_a_kind_are_visited_in_order(rt: HostRuntime) {
        let segment = Fact {
            kind: 2,
            words: [10, 20, 500],
        };
        let launcher = Fact {
            kind: 1,
            words: [10, 0, 0],
        };
        let mut table = [None; 4];
        let mut rows = Rows::new(&mut table);
        let mut labels = [7; 3];
        let (_, here, there) = put_and_read(&mut rows, 9, segment, 5);
        assert!(rt; here.is_some() && there.is_none());
        let (_, here, there) = put_and_read(&mut rows, 5, launcher, 9);
        assert!(rt; here.is_some() && there.is_some());
        let (_, here, there) = put_and_read(&mut rows, 3, segment, 4);
        assert!(rt; here.is_some() && there.is_none());
        assert_eq!(rt; visit(&rows, 2, &mut labels), 2);
        assert!(rt; labels[0] == 3 && labels[1] == 9 && labels[2] == 7);
        let (taken, here, there) = take_and_read(&mut rows, 3, 9);
        assert!(rt; taken.is_some() && here.is_none() && there.is_some());
        assert_eq!(rt; visit(&rows, 2, &mut labels), 1);
        assert!(rt; labels[0] == 9 && labels[1] == 9 && labels[2] == 7);
    }
}
