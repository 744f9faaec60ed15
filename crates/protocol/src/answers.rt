// What a step answers that is not refused.
use ledgers::ids::{EntryId, Lac, Version};
use messages::faults::BookieFault;

#[derive(Clone, Copy, PartialEq, Eq)]
pub enum Answer {
    // The version of the metadata that was put or read.
    Version(Version),
    // The entry that was appended.
    Entry(EntryId),
    // How many messages wait.
    Waiting(u32),
    // The first entry of the last fragment.
    FirstEntry(EntryId),
    // The entry that the ledger is closed at.
    ClosingEntry(Lac),
    // The writer's LAC.
    Confirmed(Lac),
    // The recoverer's settled entry.
    Settled(Lac),
    // The recoverer is not at work. An answer of its own and no `Settled` of nothing: it is printed with a number of its own, and so is
    // `Lost`.
    Idle,
    // The writer lost its ledger to a recovery, and is fenced.
    Lost,
    // Whether the bookie did what it was asked.
    Served(Result<(), BookieFault>),
    // It is done.
    Done,
}
