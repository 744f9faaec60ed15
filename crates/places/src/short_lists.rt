// Lists of a few records, in memory of their own that is fixed: an array with its count, and no array vector of the kit, since that is
// not `Copy`, which what lies in tables, in messages and in lent memory has to be.
ghost use Rattle.std.specs.Prelude.{◌≡◌, ◌-◌, ◌≤◌, length, drop, replicate, ⊤};

use crate::Blank;
use std::alloc::AllocError;

#[derive(PartialEq, Eq)]
pub struct ShortList<T: Blank, const N: usize> {
    count: usize,
    items: [T; N],
    // Of its places only the first ones count,
    ghost whole: { length items ≡ N },
    ghost few: { count ≤ N },
    // and blanks stand behind them, so that two lists of the same records are one value.
    ghost clear: { ∥ drop count items ≡ replicate (N - count) T.empty ∥₁ },
}

// A list is as plain as its records: it is copied bit by bit.
impl<T: Blank + Copy, const N: usize> Clone for ShortList<T, N> {
    ghost is_clone = { λ xs copy. copy ≡ xs };

    ghost is_infallible = { λ _. ⊤ };

    fn clone(&self) -> Result<ShortList<T, N>, AllocError> {
        Ok(*self)
    }
}

impl<T: Blank + Copy, const N: usize> Copy for ShortList<T, N> {}

pub mod changing;
pub mod listed;
