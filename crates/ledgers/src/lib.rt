// What ledgers are spoken of with: the numbers that name ledgers, bookies, positions, recoverers and messages,
// the content of an entry, and the steps that a cluster can be asked to take. Everything above speaks in these
// types, so that a ledger's number cannot be taken for a bookie's and no body is longer than an entry may be.
#![tactic(auto)]

pub mod bodies;
pub mod bookie_lists;
pub mod ids;
pub mod steps;
