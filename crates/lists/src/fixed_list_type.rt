//! A list in an array.
ghost use Rattle.std.specs.Prelude.{◌≡◌, ◌≤◌, length};

use std::alloc::AllocError;

/// A list of at most `N` items: the first `count` of the array. What stands behind them is no part of the list.
// Not the toolchain's `ArrayVec`, which is not Copy: a table of records is made by copying a blank one.
#[derive(Copy)]
pub struct FixedList<T, const N: usize> {
    pub items: [T; N],
    pub count: usize,
    ghost long: { length items ≡ N },
    ghost few: { count ≤ N },
}

// By hand: the checker derives no Clone over a ghost field where the type of the items is a parameter.
impl<T: Copy, const N: usize> Clone for FixedList<T, N> {
    ghost is_clone = { λ list copy. copy ≡ list };

    ghost is_infallible = { λ _. Unit {0} };

    fn clone(&self) -> Result<FixedList<T, N>, AllocError> {
        Ok(*self)
    }
}
