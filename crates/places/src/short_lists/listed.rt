// Short lists from records, and back.
ghost use Rattle.std.specs.Prelude.{◌≡◌, ◌≤◌, [], ◌++◌, length, drop};
ghost use Rattle.places.specs.Lists.{posted};
ghost use Rattle.places.specs.ShortLists.{listed, short_list, made_short};

use super::ShortList;
use crate::{Blank, append};

impl<T: Blank + Copy, const N: usize> ShortList<T, N> {
    // The list with no records.
    pub fn new() -> ShortList<T, N>
        ensures { result ≡ short_list [] }
    {
        ShortList {
            count: 0,
            items: [T::blank(); N],
        }
    }

    // The list of these records; none where they are more than it has places for.
    pub fn from_slice(records: &[T]) -> Option<ShortList<T, N>>
        ensures { result ≡ made_short records.now }
    {
        let count = records.len();
        if count > N {
            return None;
        }
        let mut items = [T::blank(); N];
        lay_in_front(&mut items[..], records);
        Some(ShortList { count, items })
    }

    // The records.
    pub fn as_slice(&self) -> &[T]
        ensures { result.now ≡ listed self.now }
    {
        let places = &self.items[..];
        &places[..self.count]
    }

    // One record more behind the others, lost where no place is free.
    pub fn push(&mut self, item: T)
        ensures { listed self.new ≡ posted N (listed self.old) item }
    {
        self.count = append(&mut self.items[..], self.count, item);
    }

    // All places: the records, and blanks behind them.
    pub fn places(&self) -> [T; N]
        ensures { result ≡ self.now.items }
    {
        let ShortList { items, .. } = *self;
        items
    }
}

// The first places get these records.
fn lay_in_front<T: Copy>(places: &mut [T], records: &[T])
    requires { length records.now ≤ length places.old }
    ensures { places.new ≡ records.now ++ drop (length records.now) places.old }
{
    places[..records.len()].copy_from_slice(records);
}
