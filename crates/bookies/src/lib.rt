// Bookies: what stores the entries of ledgers, and the bookie in memory.
//
// `interface` has the trait `Bookie`: add, fence, read, stop and start, each with its whole answer and the whole
// meaning after it, refusals included, in the words of the protocol. Clients and groups are proved against these
// contracts alone. `questions` makes a bookie of every make that says a few things of where its entries and fences lie
// (`storage`); `searches` has the searches that every make needs. `memory` is the make over lent records.
#![tactic(auto)]

pub mod fences;
pub mod interface;
pub mod memory;
pub mod questions;
pub mod searches;
pub mod storage;
