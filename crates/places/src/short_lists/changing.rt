// How many records a short list has, and how they change.
ghost use Rattle.std.specs.Prelude.{◌≡◌, length, slice_set};
ghost use Rattle.places.specs.LentLists.{record_at, without_at};
ghost use Rattle.places.specs.ShortLists.{listed};

use super::ShortList;
use crate::{Blank, put, remove};

impl<T: Blank + Copy, const N: usize> ShortList<T, N> {
    // How many records it has.
    pub fn len(&self) -> usize
        ensures { result ≡ length (listed self.now) }
    {
        self.as_slice().len()
    }

    // Puts another record in place of the one at `at`, if there is one.
    pub fn replace(&mut self, at: usize, item: T)
        ensures { listed self.new ≡ slice_set (listed self.old) at item }
    {
        if at < self.count {
            put(&mut self.items[..], at, item);
        }
    }

    // Takes the record at `at` off, if there is one.
    pub fn remove(&mut self, at: usize) -> Option<T>
        ensures answer { result ≡ record_at T.empty (listed self.old) at }
        ensures records { listed self.new ≡ without_at (listed self.old) at }
    {
        let taken = remove(&mut self.items[..], self.count, at);
        if taken.is_some() {
            self.count -= 1;
        }
        taken
    }
}
