// The blank fragment, and the layout of no ledger.
ghost use Rattle.layout.specs.Layouts.{blank_fragment, no_layout};

use super::{Fragment, Layout};
use crate::sizes::Sizes;
use ledgers::bookie_lists::{BookieList, MAX_ENSEMBLE};
use ledgers::ids::EntryId;
use places::Blank;

impl Blank for Fragment {
    ghost empty = { blank_fragment };

    fn blank() -> Fragment {
        Fragment {
            first: EntryId(0),
            bookies: [0; MAX_ENSEMBLE],
        }
    }
}

impl Blank for Layout {
    ghost empty = { no_layout };

    // Zeros, for an ensemble of one.
    fn blank() -> Layout {
        let Some(sizes) = Sizes::new(1, 1, 1) else {
            unreachable()
        };
        let Some(bookies) = BookieList::new(&[]) else {
            unreachable()
        };
        Layout::first(sizes, &bookies)
    }
}
