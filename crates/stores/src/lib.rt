// Stores of metadata: what takeover of a ledger rests on.
//
// A store keeps, for each of sixteen ledgers, nothing or a version and a record, and can take so many changes. Who
// changes a record names the version that it last saw, and is refused where another was quicker: so of a writer and
// the recoverers of its ledger each learns that it has been overtaken. Trait `Store` states the three calls for every
// store; `Table` is the one that keeps the present records in memory. Both answers and what is kept after a call are
// the protocol's own definitions, for every argument: a call has no premise, and one that is refused alters nothing.
#![tactic(auto)]

pub mod calls;
pub mod questions;
pub mod table;
