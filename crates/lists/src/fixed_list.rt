//! What a list in an array answers, and how it grows and shrinks.
ghost use Rattle.std.specs.Prelude.{◌≡◌, ◌≤◌, ◌∷◌, ◌++◌, ◌-◌, [], length, take, true, nat_lt, replicate, slice_get, slice_set};
ghost use Rattle.lists.specs.Held.{held};

use crate::fixed_list_type::FixedList;

impl<T: Copy, const N: usize> FixedList<T, N> {
    /// A list without items. The blank stands in the places that are not used.
    pub fn new(blank: T) -> FixedList<T, N>
        ensures held { held result ≡ [] }
        ensures items { result.items ≡ replicate N blank }
    {
        FixedList {
            items: [blank; N],
            count: 0,
        }
    }

    /// How many items the list has.
    pub fn len(&self) -> usize
        ensures count { result ≡ length (held self.now) }
        ensures bound { result ≤ N }
    {
        self.as_slice().len()
    }

    /// The items.
    pub fn as_slice(&self) -> &[T]
        ensures items { result.now ≡ held self.now }
        ensures bound { length result.now ≤ N }
    {
        let items = &self.items[..];
        &items[0..self.count]
    }

    /// Whether there is room for one item more.
    pub fn has_room(&self) -> bool
        ensures { result ≡ nat_lt (length (held self.now)) N }
    {
        self.len() < N
    }

    /// One item more, behind the others.
    pub fn push(&mut self, item: T)
        requires { nat_lt (length (held self.old)) N ≡ true }
        ensures held { held self.new ≡ held self.old ++ (item ∷ []) }
        ensures items { self.new.items ≡ slice_set self.old.items (length (held self.old)) item }
    {
        self.items[self.count] = item;
        self.count += 1;
    }

    /// The last item, which goes, or none where there are no items.
    pub fn pop(&mut self) -> Option<T>
        ensures last { result ≡ slice_get (held self.old) (length (held self.old) - 1) }
        ensures rest { held self.new ≡ take (length (held self.old) - 1) (held self.old) }
        ensures items { self.new.items ≡ self.old.items }
    {
        let last = self.count.checked_sub(1)?;
        self.count = last;
        Some(self.items[last])
    }

    /// All items go.
    pub fn clear(&mut self)
        ensures held { held self.new ≡ [] }
        ensures items { self.new.items ≡ self.old.items }
    {
        self.count = 0;
    }
}
