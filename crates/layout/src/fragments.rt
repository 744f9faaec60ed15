// The bookies of a ledger, by position and from which entry on.
ghost use Rattle.std.specs.Prelude.{◌≡◌, ◌≤◌, length};

use crate::sizes::Sizes;
use ledgers::ids::EntryId;

// The most fragments that a ledger has.
pub const MAX_FRAGMENTS: usize = 8;

// From its first entry on, the number of the bookie at each position. Those past the ensemble mean nothing.
#[derive(Clone, Copy)]
pub struct Fragment {
    pub first: EntryId,
    pub bookies: [u32; 5],
}

// The fragments of a ledger by rising first entry.
#[derive(Clone, Copy)]
pub struct Layout {
    sizes: Sizes,
    fragments: [Fragment; 8],
    // The first so many of them count: one at least, since every entry belongs to a fragment. No `ShortList`: the last one is
    // changed in place, and a list that may be empty would leave each question for the last one without an answer.
    count: usize,
    ghost eight: { length fragments ≡ 8 },
    ghost some: { 1 ≤ count },
    ghost few: { count ≤ 8 },
}

pub mod blanks;
pub mod changing;
pub mod reading;
