// The protocol of fenced ledgers as one set of definitions (`specs/`), and what it promises over every run.
//
// A cluster has bookies, a store of metadata, the writers of sixteen ledgers, four recoverers and a list of messages
// on their way. `specs/Steps.antt` says of each of the thirteen steps what it asks, what it answers and what cluster
// it leaves; `specs/Law.antt` says what holds after every list of steps: a closed ledger keeps its word. The functions
// of `promises` name these statements in their contracts, so that they are proved.
#![tactic(auto)]

pub mod answers;
pub mod faults;
pub mod promises;
pub mod recoverers;
pub mod writers;
