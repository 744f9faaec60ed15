// The writer of a ledger. Its pending adds are in memory of its own, so that it is copied as any record is.
ghost use Rattle.std.specs.Prelude.{◌≡◌, ◌+◌, ◌≤◌, length};
ghost use Rattle.places.specs.ShortLists.{listed};

use layout::fragments::Layout;
use ledgers::ids::{Lac, Version};
use messages::entries::PendingAdd;
use places::short_lists::ShortList;
use protocol::writers::WriterState;

// The most adds that a writer has pending.
pub const MAX_PENDING: usize = 16;

// It does not know the number of its ledger, and is told it at each call: in a table of writers that is the row's number, and a
// writer that knew it too would need a clause in each call that the two stay the same.
#[derive(Clone, Copy)]
pub struct Writer {
    state: WriterState,
    // The record's, until a recovery takes the ledger over.
    layout: Layout,
    // Of its last put: where the store has a higher one, somebody took the ledger over.
    version: Version,
    // Each entry that counts here is confirmed: an ack quorum of its write set holds it.
    lac: Lac,
    // The entries from there on that are pending, in order.
    pending: ShortList<PendingAdd, MAX_PENDING>,
    // There are so many entries at most.
    ghost small: { lac.0 + length (listed pending) ≤ 10000 },
}

pub mod changing;
pub mod hearing;
pub mod making;
pub mod putting;
pub mod sending;
