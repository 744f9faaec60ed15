// Marks on positions, by the bookie that stands there.
ghost use Rattle.std.specs.Prelude.{◌≡◌};
ghost use Rattle.layout.specs.WriteSets.{write_set, ensemble, mark, marked};
ghost use Rattle.layout.specs.Layouts.{fragment_of, last_fragment};

use crate::fragments::{Fragment, Layout};
use ledgers::ids::{BookieId, EntryId, Position};
use places::put;

impl Layout {
    // Marks the position at which a bookie stands in the ensemble of the last fragment, if it does.
    pub fn mark_ensemble(&self, bookie: BookieId, marks: &mut [bool; 5])
        ensures { marks.new ≡ mark (last_fragment self.now).bookies (ensemble self.now.sizes) bookie.0 marks.old }
    {
        let positions = self.sizes().whole_ensemble();
        mark_first(&self.last_fragment(), positions.as_slice(), bookie, marks);
    }

    // Marks the position at which a bookie stands in the write set of an entry, if it does.
    pub fn mark_write_set(&self, e: EntryId, bookie: BookieId, marks: &mut [bool; 5])
        ensures { marks.new ≡ mark (fragment_of self.now e.0).bookies (write_set self.now.sizes e.0) bookie.0 marks.old }
    {
        let positions = self.sizes().write_set(e);
        mark_first(&self.fragment_of(e), positions.as_slice(), bookie, marks);
    }
}

// Marks the first of these positions at which the bookie stands in a fragment.
fn mark_first(fragment: &Fragment, positions: &[u32], bookie: BookieId, marks: &mut [bool; 5])
    ensures { marks.new ≡ mark fragment.now.bookies positions.now bookie.0 marks.old }
{
    for position in positions {
        if fragment.bookie(Position(*position)) == bookie {
            put(&mut marks[..], *position as usize, true);
            return;
        }
    }
}

// Whether a position is marked; one that there cannot be is not.
pub fn is_marked(marks: &[bool; 5], position: u32) -> bool
    ensures { result ≡ marked marks.now position }
{
    marks.get(position as usize).copied().unwrap_or(false)
}
