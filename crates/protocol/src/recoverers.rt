// The recoverer of a ledger.
use layout::fragments::Layout;
use ledgers::bodies::Body;
use ledgers::ids::{Lac, LedgerId, Version};

// What it is at, with the positions that have answered.
#[derive(Clone, Copy, PartialEq, Eq)]
pub enum Phase {
    // It has no ledger. A phase beside the others, and no Option of a recoverer: each rule asks for the phase once, and
    // would ask for the recoverer first.
    Idle,
    // It fences the ensemble of the last fragment.
    Fencing {
        marks: [bool; 5],
    },
    // It reads the entry after the settled one: positions where that is absent are marked.
    Reading {
        absent: [bool; 5],
    },
    // It writes that entry back, with the LAC and the body as read: positions that hold it are marked.
    Writing {
        good: [bool; 5],
        lac: Lac,
        body: Body,
    },
    // It knows where to close the ledger.
    Ended,
}

#[derive(Clone, Copy)]
pub struct Recoverer {
    pub phase: Phase,
    pub ledger: LedgerId,
    // Of the metadata as this recovery read or put it.
    pub version: Version,
    pub layout: Layout,
    // Every entry up to this one has an ack quorum of copies.
    pub settled: Lac,
}
