// What clients ask of bookies, and what these answer. A client is the writer of the ledger, or a recoverer.
use crate::faults::BookieFault;
use ledgers::bodies::Body;
use ledgers::ids::{BookieId, EntryId, Lac, LedgerId, RecovererId};

#[derive(Clone, Copy)]
pub enum Message {
    // Requests: to fence the ledger and tell the bookie's LAC,
    Fence {
        recoverer: RecovererId,
        ledger: LedgerId,
        bookie: BookieId,
    },
    // to fence the ledger and read an entry,
    RecoveryRead {
        recoverer: RecovererId,
        ledger: LedgerId,
        bookie: BookieId,
        entry: EntryId,
    },
    // to hold an entry for the writer,
    Add {
        ledger: LedgerId,
        bookie: BookieId,
        entry: EntryId,
        lac: Lac,
        body: Body,
    },
    // and to hold an entry for a recovery, fenced or not.
    RecoveryAdd {
        recoverer: RecovererId,
        ledger: LedgerId,
        bookie: BookieId,
        entry: EntryId,
        lac: Lac,
        body: Body,
    },
    // Replies to the writer: the entry is held,
    Added {
        ledger: LedgerId,
        bookie: BookieId,
        entry: EntryId,
    },
    // or its add was refused.
    AddRefused {
        ledger: LedgerId,
        bookie: BookieId,
        entry: EntryId,
        fault: BookieFault,
    },
    // Replies to a recoverer: the ledger is fenced, and this is the bookie's LAC;
    Fenced {
        recoverer: RecovererId,
        ledger: LedgerId,
        bookie: BookieId,
        lac: Lac,
    },
    // the entry is not held;
    Absent {
        recoverer: RecovererId,
        ledger: LedgerId,
        bookie: BookieId,
        entry: EntryId,
    },
    // the entry is held, with this LAC and body;
    Found {
        recoverer: RecovererId,
        ledger: LedgerId,
        bookie: BookieId,
        entry: EntryId,
        lac: Lac,
        body: Body,
    },
    // the entry is held from now on;
    RecoveryAdded {
        recoverer: RecovererId,
        ledger: LedgerId,
        bookie: BookieId,
        entry: EntryId,
    },
    // or the request was refused.
    Refused {
        recoverer: RecovererId,
        ledger: LedgerId,
        bookie: BookieId,
        fault: BookieFault,
    },
}
