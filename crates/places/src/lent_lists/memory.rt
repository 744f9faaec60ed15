// Where a list lies: in places that somebody lends, or in places of its own.
ghost use Rattle.std.specs.Prelude.{◌≡◌, ◌+◌, length, replicate, if◌then◌else◌, nat_lt, slice_set};
ghost use Rattle.places.specs.Lists.{Removed};
ghost use Rattle.places.specs.Memory.{contents};

use crate::{Blank, append, clear, put, remove};

pub(crate) enum Places<'a, T> {
    Lent(&'a mut [T]),
    Owned(Vec<T>),
}

// Not derived: that would put the match into each function that lets a list go, where no rule of the check covers it.
impl<'a, T: Drop> Drop for Places<'a, T> {
    fn drop(self) {
        match self {
            Places::Lent(_) => {}
            Places::Owned(places) => drop(places),
        }
    }
}

// What the functions of the same names do to a slice is done here to the places, whoever has them.
impl<'a, T: Blank + Copy> Places<'a, T> {
    pub(crate) fn as_slice(&self) -> &[T]
        ensures { result.now ≡ contents self.now }
    {
        match self {
            Places::Lent(places) => &places[..],
            Places::Owned(places) => &places[..],
        }
    }

    pub(crate) fn put(&mut self, at: usize, item: T)
        ensures { contents self.new ≡ slice_set (contents self.old) at item }
    {
        match self {
            Places::Lent(places) => put(places, at, item),
            Places::Owned(places) => put(&mut places[..], at, item),
        }
    }

    pub(crate) fn append(&mut self, count: usize, item: T) -> usize
        ensures count { result ≡ (if nat_lt count (length (contents self.old)) then count + 1 else count) }
        ensures after { contents self.new ≡ slice_set (contents self.old) count item }
    {
        match self {
            Places::Lent(places) => append(places, count, item),
            Places::Owned(places) => append(&mut places[..], count, item),
        }
    }

    pub(crate) fn remove(&mut self, count: usize, at: usize) -> Option<T>
        ensures after { Removed T.empty (contents self.old) count at result (contents self.new) }
        ensures room { length (contents self.new) ≡ length (contents self.old) }
    {
        match self {
            Places::Lent(places) => remove(places, count, at),
            Places::Owned(places) => remove(&mut places[..], count, at),
        }
    }

    pub(crate) fn clear(&mut self)
        ensures { contents self.new ≡ replicate (length (contents self.old)) T.empty }
    {
        match self {
            Places::Lent(places) => clear(places),
            Places::Owned(places) => clear(&mut places[..]),
        }
    }
}
