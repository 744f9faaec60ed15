// Which fragment an entry belongs to, and which bookies stand there.
ghost use Rattle.std.specs.Prelude.{◌≡◌, slice_index};
ghost use Rattle.layout.specs.Layouts.{fragment_of, last_fragment, bookie_at};

use super::{Fragment, Layout};
use crate::sizes::Sizes;
use ledgers::ids::{BookieId, EntryId, Position};
use places::Blank;

impl Fragment {
    // The bookie at a position; 0 past the positions that a fragment has.
    pub fn bookie(&self, position: Position) -> BookieId
        ensures { result.0 ≡ slice_index self.now.bookies position.0 }
    {
        let number = self.bookies.get(position.0 as usize);
        BookieId(number.copied().unwrap_or(0))
    }
}

impl Layout {
    pub fn sizes(&self) -> Sizes
        ensures { result ≡ self.now.sizes }
    {
        self.sizes
    }

    // The fragment that an entry belongs to.
    pub fn fragment_of(&self, e: EntryId) -> Fragment
        ensures { result ≡ fragment_of self.now e.0 }
    {
        let mut found = Fragment::blank();
        for fragment in &self.fragments[..self.count] {
            if fragment.first <= e {
                found = *fragment;
            }
        }
        found
    }

    pub fn last_fragment(&self) -> Fragment
        ensures { result ≡ last_fragment self.now }
    {
        self.fragments[self.count - 1]
    }

    // The bookie at a position, for an entry; 0 past the positions that a fragment has.
    pub fn bookie_at(&self, e: EntryId, position: Position) -> BookieId
        ensures { result.0 ≡ bookie_at self.now e.0 position.0 }
    {
        self.fragment_of(e).bookie(position)
    }
}
