//! What an application removes from the store, and the labels that it lists.
ghost use Rattle.std.specs.Prelude.{◌≡◌, ◌+◌, ◌≤◌, ◌++◌, take, drop, length};
ghost use Rattle.stores.specs.Piles.{with_pairs};
ghost use Rattle.stores.specs.Store.{without};

use stores::Store;

/// The facts of these labels leave the store.
pub(crate) fn remove_all<S: Store>(store: &mut S, labels: &[u32])
    ensures { S.meaning store.new ≡ with_pairs (S.meaning store.old) (without labels.now (S.meaning store.old).pairs) }
{
    for label in labels {
        let _fact = store.take(*label);
    }
}

/// Labels are written over a list from a place on. Answers the place behind them.
pub(crate) fn write_labels(list: &mut [u32], start: usize, labels: &[u32]) -> usize
    requires { start + length labels.now ≤ length list.old }
    ensures end { result ≡ start + length labels.now }
    ensures list { list.new ≡ take start list.old ++ (labels.now ++ drop (start + length labels.now) list.old) }
{
    let end = start + labels.len();
    list[start..end].copy_from_slice(labels);
    end
}
