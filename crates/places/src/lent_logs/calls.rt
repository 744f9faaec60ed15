// What a lent log can be asked, and how it changes.
ghost use Rattle.std.specs.Prelude.{◌≡◌, [], length, take, slice_set, nat_lt};
ghost use Rattle.places.specs.Lists.{posted};
ghost use Rattle.places.specs.LentLogs.{records, room};

use super::LentLog;
use crate::append;

impl<'a, T: Copy> LentLog<'a, T> {
    // The log with no records. No place is written to.
    pub fn new(places: &'a mut [T]) -> LentLog<'a, T>
        ensures records { records result ≡ [] }
        ensures room { room result ≡ length places.old }
        ensures places { result.places.now ≡ places.old }
    {
        LentLog { places, count: 0 }
    }

    // How many records it has.
    pub fn len(&self) -> usize
        ensures { result ≡ length (records self.now) }
    {
        self.as_slice().len()
    }

    // How many records there is room for.
    pub fn capacity(&self) -> usize
        ensures { result ≡ room self.now }
    {
        self.places.len()
    }

    // Whether a place is free for one record more.
    pub fn has_room(&self) -> bool
        ensures { result ≡ nat_lt (length (records self.now)) (room self.now) }
    {
        self.len() < self.capacity()
    }

    // The records.
    pub fn as_slice(&self) -> &[T]
        ensures { result.now ≡ records self.now }
    {
        &self.places[..self.count]
    }

    // One record more behind the others, lost where no place is free.
    pub fn push(&mut self, item: T)
        ensures records { records self.new ≡ posted (room self.old) (records self.old) item }
        ensures room { room self.new ≡ room self.old }
        ensures places { self.new.places.now ≡ slice_set self.old.places.now (length (records self.old)) item }
    {
        self.count = append(self.places, self.count, item);
    }

    // Leaves the first so many records, or all where there are no more. No place is written to.
    pub fn truncate(&mut self, count: usize)
        ensures records { records self.new ≡ take count (records self.old) }
        ensures places { self.new.places.now ≡ self.old.places.now }
    {
        self.count = self.count.min(count);
    }
}
