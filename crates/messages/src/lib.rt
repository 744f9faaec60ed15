// What clients, bookies and stores exchange and keep: messages, entries, pending adds and the metadata of a ledger,
// with the reasons for which a bookie or a store refuses. Plain types, with their blanks and the numbers of the
// refusals; `specs/` has the list in which messages wait.
#![tactic(auto)]

pub mod blanks;
pub mod entries;
pub mod faults;
pub mod messages;
pub mod metadata;
