// An entry as it is kept: by a bookie, and by its writer until it is confirmed.
use ledgers::bodies::Body;
use ledgers::ids::{EntryId, Lac, LedgerId};

// An entry that a bookie holds, with the LAC that its add carried.
#[derive(Clone, Copy)]
pub struct Held {
    pub ledger: LedgerId,
    pub entry: EntryId,
    pub lac: Lac,
    pub body: Body,
}

// An entry that its writer has not confirmed yet, and the positions that acknowledged it.
#[derive(Clone, Copy)]
pub struct PendingAdd {
    pub body: Body,
    pub marks: [bool; 5],
}
