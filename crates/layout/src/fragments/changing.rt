// The layout of a new ledger, and the one after an ensemble change.
ghost use Rattle.std.specs.Prelude.{◌≡◌};
ghost use Rattle.ledgers.specs.BookieLists.{by_position};
ghost use Rattle.layout.specs.Layouts.{first_layout, room_for, changed_place, changed_fragment, changed_layout};
ghost use Rattle.layout.specs.Rising.{Rising, Onward};

use super::{Fragment, Layout, MAX_FRAGMENTS};
use crate::sizes::Sizes;
use ledgers::bookie_lists::BookieList;
use ledgers::ids::{BookieId, EntryId, Position};
use places::{Blank, put};

impl Layout {
    // The layout of a new ledger: one fragment, from entry 0 on, with these bookies by position.
    pub fn first(sizes: Sizes, bookies: &BookieList) -> Layout
        ensures layout { result ≡ first_layout sizes (by_position bookies.now) }
        ensures rising { Rising result }
    {
        Layout::single(sizes, bookies)
    }

    // The layout with a single fragment.
    fn single(sizes: Sizes, bookies: &BookieList) -> Layout
        ensures layout { result ≡ first_layout sizes (by_position bookies.now) }
        ensures rising { Rising result }
    {
        let mut fragments = [Fragment::blank(); MAX_FRAGMENTS];
        fragments[0].bookies = bookies.by_position();
        Layout {
            sizes,
            fragments,
            count: 1,
        }
    }

    // Whether a change from an entry on makes no ninth fragment.
    pub fn has_room(&self, first: EntryId) -> bool
        ensures { result ≡ room_for self.now first.0 }
    {
        self.last_fragment().first == first || self.count < MAX_FRAGMENTS
    }

    // The layout with a bookie put at a position from an entry on: the last fragment is altered if it begins there, and
    // else one is added. A position that no fragment has, and a ninth fragment, leave no trace.
    pub fn changed(&self, first: EntryId, position: Position, bookie: BookieId) -> Layout
        ensures layout { result ≡ changed_layout self.now first.0 position.0 bookie.0 }
        ensures rising { Rising self.now → Onward self.now first.0 → Rising result }
    {
        let mut layout = *self;
        layout.change(first, position, bookie);
        layout
    }

    // The same in place.
    fn change(&mut self, first: EntryId, position: Position, bookie: BookieId)
        ensures layout { self.new ≡ changed_layout self.old first.0 position.0 bookie.0 }
        ensures rising { Rising self.old → Onward self.old first.0 → Rising self.new }
    {
        let fragment = self.last_fragment().changed(first, position, bookie);
        let at = self.place_from(first);
        if at < MAX_FRAGMENTS {
            self.fragments[at] = fragment;
            self.count = at + 1;
        }
    }

    // The place of the fragment that a change from an entry on alters or adds.
    fn place_from(&self, first: EntryId) -> usize
        ensures { result ≡ changed_place self.now first.0 }
    {
        if self.last_fragment().first == first {
            self.count - 1
        } else {
            self.count
        }
    }
}

impl Fragment {
    // The fragment from another entry on, with a bookie put at a position.
    pub fn changed(&self, first: EntryId, position: Position, bookie: BookieId) -> Fragment
        ensures { result ≡ changed_fragment self.now first.0 position.0 bookie.0 }
    {
        let mut bookies = self.bookies;
        put(&mut bookies[..], position.0 as usize, bookie.0);
        Fragment { first, bookies }
    }
}
