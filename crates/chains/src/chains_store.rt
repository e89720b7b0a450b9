//! The functions of a store of linked rows.
ghost use Rattle.std.specs.Prelude.{◌≡◌, ◌≤◌, ◌-◌, ◌%◌, true, pos, slice_index_or};
ghost use Rattle.stores.specs.Store.{of_kind_with};
ghost use Rattle.stores.specs.Piles.{sound_pair, after_take};
ghost use Rattle.stores.specs.Table.{pile_of, pairs_of};
ghost use Rattle.chains.specs.Links.{points, next_in, on_chain};
ghost use Rattle.chains.specs.Rows.{rows_of, chain_at};
ghost use Rattle.chains.specs.declared.chain_types.Way.TheVariants.{ByLabel};
ghost use Rattle.chains.specs.Acts.{asked_label, having, Finds, Replaces};

use crate::chain_types::{Chain, ChainRow, Way};
use crate::chains_type::Chains;
use crate::ways::chain_of;
use facts::{Fact, KINDS};
use stores::{Store, StoreFault, check_pair, is_asked_for};

/// The label of a row whose fact has a kind and a first word, or none.
fn asked_label(row: &ChainRow, kind: u8, word: i64) -> Option<u32>
    ensures { result ≡ asked_label kind word row.now.row }
{
    let (label, fact) = row.row?;
    is_asked_for(&fact, kind, word).then_some(label)
}

/// The chain of a label.
fn label_chain(label: u32) -> Chain
    ensures way { result.way ≡ ByLabel }
    ensures number { result.number ≡ label % 64 }
{
    chain_of(Way::ByLabel, label, 0, 0)
}

impl Chains<'_> {
    /// The row that is named and its fact, where the row has the label; else none.
    fn found(&self, label: u32, at: Option<u32>) -> Option<(u32, Fact)>
        ensures { result ≡ having label (rows_of self.now.linked.table.now) at }
    {
        let at = at?;
        let (held, fact) = self.linked.table.get(at as usize)?.row?;
        (held == label).then_some((at, fact))
    }

    /// The row of a label and its fact, or none: the first row of the label's chain that is not below it has the label or no row has it.
    fn held(&self, label: u32) -> Option<(u32, Fact)>
        ensures { Finds label (rows_of self.now.linked.table.now) result }
    {
        if label == 0 {
            return None;
        }
        let spot = self.linked.place(label_chain(label), label - 1);
        self.found(label, spot.at)
    }

    /// The same, where the label may be above all of its chain, as the chain's last row then shows without a walk.
    fn held_or_last(&self, label: u32) -> Option<(u32, Fact)>
        requires { 1 ≤ label }
        ensures { Finds label (rows_of self.now.linked.table.now) result }
    {
        let chain = label_chain(label);
        let last = self.linked.heads.last(chain);
        let spot = self.linked.place_by(chain, label - 1, last);
        self.found(label, spot.at)
    }

    /// The first row of a chain whose label is above another. Where the other's own row stands on the chain, it is that row's next one.
    fn first_above(&self, chain: Chain, above: u32) -> Option<u32>
        ensures { points (rows_of self.now.linked.table.now) result (next_in (on_chain (chain_at chain.way) chain.number) above (pairs_of (rows_of self.now.linked.table.now))) ≡ true }
    {
        let own = self.held(above).map(|(i, _)| i);
        self.linked.place_by(chain, above, own).at
    }

    /// Puts a fact in the place of one of its kind and first word, so that no row changes its chains; or answers none and changes nothing.
    fn replaced(&mut self, held: Option<(u32, Fact)>, label: u32, fact: Fact) -> Option<()>
        requires held { Finds label (rows_of self.old.linked.table.now) held }
        requires pair { sound_pair (label, fact) ≡ true }
        ensures { Replaces result label fact (rows_of self.old.linked.table.now) (rows_of self.new.linked.table.now) }
    {
        let (i, held) = held?;
        if !same_chains(&held, &fact) {
            return None;
        }
        self.linked.table[i as usize].row = Some((label, fact));
        Some(())
    }

    /// Takes a label's pair out, where a row has it.
    fn cleared(&mut self, held: Option<(u32, Fact)>, label: u32)
        requires { Finds label (rows_of self.old.linked.table.now) held }
        ensures { pile_of (rows_of self.new.linked.table.now) ≡ after_take label (pile_of (rows_of self.old.linked.table.now)) }
    {
        if let Some((i, fact)) = held {
            let pair = (label, fact);
            self.linked.remove(i, &pair);
        }
    }
}

/// Whether two facts under one label stand on the same chains, by kind and first word.
// By hand: it is equality of two parts of a fact, and the derived one is of the whole.
fn same_chains(left: &Fact, right: &Fact) -> bool
    ensures { result ≡ of_kind_with right.now.kind (slice_index_or right.now.words 0 (pos 0)) left.now }
{
    is_asked_for(left, right.kind, right.words[0])
}

impl Store for Chains<'_> {
    ghost meaning = { λ s. pile_of (rows_of s.linked.table.now) };

    ghost owed = { λ s. s.chained.kept };

    fn capacity(&self) -> usize {
        self.linked.table.len()
    }

    fn count(&self) -> usize {
        self.linked.heads.count
    }

    /// A job asks most for the label that it put last, which the last row of the label's chain has.
    // Inlined, as the search reads each candidate: called out of line, the workload `shortest` took 4 in 100 more instructions.
    #[inline]
    fn read(&self, label: u32) -> Option<Fact> {
        let last = self.linked.heads.last(label_chain(label));
        if let Some((_, fact)) = self.found(label, last) {
            return Some(fact);
        }
        let (_, fact) = self.held(label)?;
        Some(fact)
    }

    /// There are as many chains as kinds, so all rows of the chain have the kind. Above the label of a row of the chain, the chain is not walked.
    fn next(&self, kind: u8, above: u32) -> Option<u32> {
        if kind >= KINDS {
            return None;
        }
        let chain = Chain {
            way: Way::ByKind,
            number: usize::from(kind),
        };
        let at = self.first_above(chain, above)?;
        let (label, _) = self.linked.table[at as usize].row?;
        Some(label)
    }

    /// The walk ends at the first row that fits, since behind it the labels are greater.
    // By hand, as in `walk`. With its beginning by `first_above`, tried, the workload `shortest` took 6 in 100 more instructions.
    fn next_with(&self, kind: u8, word: i64, above: u32) -> Option<u32> {
        let chain = chain_of(Way::ByWord, 0, kind, word);
        let table = &*self.linked.table;
        let mut at = self.linked.place(chain, above).at;
        while let Some(i) = at {
            let row = &table[i as usize];
            if let Some(label) = asked_label(row, kind, word) {
                return Some(label);
            }
            at = row.next(Way::ByWord);
        }
        None
    }

    /// A fact of another kind or first word than the label's own stands on other chains, and so the label's pair is taken out first.
    fn put(&mut self, label: u32, fact: Fact) -> Result<(), StoreFault> {
        check_pair(label, &fact)?;
        let held = self.held_or_last(label);
        if self.replaced(held, label, fact).is_some() {
            return Ok(());
        }
        self.cleared(held, label);
        let i = self.linked.heads.free.ok_or(StoreFault::Full)?;
        self.linked.add(i, (label, fact));
        Ok(())
    }

    fn take(&mut self, label: u32) -> Option<Fact> {
        let (i, fact) = self.held(label)?;
        self.linked.remove(i, &(label, fact));
        Some(fact)
    }
}

#[cfg(test)]
mod tests {
    use crate::chain_types::FREE_ROW;
    use crate::chains_type::Chains;
    use facts::Fact;
    use stores::{Store, put_and_read, take_and_read, visit};

    const SEGMENT: Fact = Fact {
        kind: 2,
        words: [10, 20, 500],
    };

    const LAUNCHER: Fact = Fact {
        kind: 1,
        words: [10, 0, 0],
    };

    #[test]
    fn tables_of_no_row_and_of_one_too_many(rt: HostRuntime) {
        let none = [FREE_ROW; 0];
        let many = [FREE_ROW; 1_025];
        assert!(rt; Chains::check(&none).is_err());
        assert!(rt; Chains::check(&many).is_err());
    }

    #[test]
    fn a_new_store_forgets_what_the_table_held(rt: HostRuntime) {
        let mut table = [FREE_ROW; 3];
        let mut chains = Chains::new(&mut table);
        assert!(rt; chains.put(4, SEGMENT).is_ok());
        assert_eq!(rt; chains.count(), 1);
        let again = Chains::new(&mut table);
        assert_eq!(rt; again.count(), 0);
        assert_eq!(rt; again.next(2, 0), None);
        assert_eq!(rt; again.next_with(2, 10, 0), None);
    }

    #[test]
    fn labels_of_a_kind_are_visited_in_order(rt: HostRuntime) {
        let mut table = [FREE_ROW; 4];
        let mut chains = Chains::new(&mut table);
        let mut labels = [7; 3];
        let (_, here, there) = put_and_read(&mut chains, 9, SEGMENT, 5);
        assert!(rt; here.is_some() && there.is_none());
        let (_, here, there) = put_and_read(&mut chains, 5, LAUNCHER, 9);
        assert!(rt; here.is_some() && there.is_some());
        let (_, here, there) = put_and_read(&mut chains, 3, SEGMENT, 4);
        assert!(rt; here.is_some() && there.is_none());
        assert_eq!(rt; visit(&chains, 2, &mut labels), 2);
        assert!(rt; labels[0] == 3 && labels[1] == 9 && labels[2] == 7);
        let (taken, here, there) = take_and_read(&mut chains, 3, 9);
        assert!(rt; taken.is_some() && here.is_none() && there.is_some());
        assert_eq!(rt; visit(&chains, 2, &mut labels), 1);
        assert!(rt; labels[0] == 9 && labels[1] == 9 && labels[2] == 7);
    }

    #[test]
    fn a_fact_that_changes_its_first_word_changes_its_chain(rt: HostRuntime) {
        let mut table = [FREE_ROW; 2];
        let mut chains = Chains::new(&mut table);
        assert!(rt; chains.put(4, SEGMENT).is_ok());
        assert!(rt; chains.put(6, SEGMENT).is_ok());
        let far = Fact {
            kind: 2,
            words: [-11, 20, 500],
        };
        assert!(rt; chains.put(4, far).is_ok());
        assert_eq!(rt; chains.next_with(2, 10, 0), Some(6));
        assert_eq!(rt; chains.next_with(2, -11, 0), Some(4));
        assert_eq!(rt; chains.next(2, 0), Some(4));
        assert!(rt; chains.put(5, far).is_err());
    }
}
