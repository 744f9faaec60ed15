// A store of metadata that forgets nothing: every change is noted behind the earlier ones, in memory that its owner lends.
//
// `Chronicle::new` takes places for changes, 60,000 at most, and the chronicle is then a `Store` like any other, with as
// many changes as it has places. Beyond what every store promises, each change that it ever accepted can still be read,
// in the order in which they were made: version v of a ledger is the v-th change of that ledger. A call that is refused
// notes nothing.
#![tactic(auto)]

pub mod changes;
pub mod chronicle;
