// What a lent list can be asked, and how it changes.
ghost use Rattle.std.specs.Prelude.{◌≡◌, [], length, slice_set, nat_lt, vec_len};
ghost use Rattle.places.specs.Lists.{posted};
ghost use Rattle.places.specs.Memory.{contents};
ghost use Rattle.places.specs.LentLists.{records, room, record_at, without_at};

use super::LentList;
use super::memory::Places;
use crate::Blank;

impl<'a, T: Blank + Copy> LentList<'a, T> {
    // The list with no records, once every place is blank.
    pub fn new(places: &'a mut [T]) -> LentList<'a, T>
        ensures records { records result ≡ [] }
        ensures room { room result ≡ length places.old }
    {
        LentList::emptied(Places::Lent(places))
    }

    // The same in places that are handed over, for a list that outlives who made it.
    pub fn owning(places: Vec<T>) -> LentList<'a, T>
        ensures records { records result ≡ [] }
        ensures room { room result ≡ vec_len places }
    {
        LentList::emptied(Places::Owned(places))
    }

    // The list with no records in these places.
    fn emptied(mut places: Places<'a, T>) -> LentList<'a, T>
        ensures records { records result ≡ [] }
        ensures room { room result ≡ length (contents places.entry) }
    {
        places.clear();
        LentList { places, count: 0 }
    }

    // How many records it has.
    pub fn len(&self) -> usize
        ensures { result ≡ length (records self.now) }
    {
        self.as_slice().len()
    }

    // Whether a place is free for one record more.
    pub fn has_room(&self) -> bool
        ensures { result ≡ nat_lt (length (records self.now)) (room self.now) }
    {
        self.count < self.places.as_slice().len()
    }

    // The records.
    pub fn as_slice(&self) -> &[T]
        ensures { result.now ≡ records self.now }
    {
        &self.places.as_slice()[..self.count]
    }

    // One record more behind the others, lost where no place is free.
    pub fn push(&mut self, item: T)
        ensures records { records self.new ≡ posted (room self.old) (records self.old) item }
        ensures room { room self.new ≡ room self.old }
        ensures places { contents self.new.places ≡ slice_set (contents self.old.places) (length (records self.old)) item }
    {
        self.count = self.places.append(self.count, item);
    }

    // Takes the record at `at` off, if there is one.
    pub fn remove(&mut self, at: usize) -> Option<T>
        ensures answer { result ≡ record_at T.empty (records self.old) at }
        ensures records { records self.new ≡ without_at (records self.old) at }
        ensures room { room self.new ≡ room self.old }
    {
        let taken = self.places.remove(self.count, at);
        if taken.is_some() {
            self.count -= 1;
        }
        taken
    }

    // Puts another record in place of the one at `at`, if there is one.
    pub fn replace(&mut self, at: usize, item: T)
        ensures records { records self.new ≡ slice_set (records self.old) at item }
        ensures room { room self.new ≡ room self.old }
    {
        if at < self.count {
            self.places.put(at, item);
        }
    }

    // Takes all records off.
    pub fn clear(&mut self)
        ensures records { records self.new ≡ [] }
        ensures room { room self.new ≡ room self.old }
    {
        self.places.clear();
        self.count = 0;
    }
}
