// Who takes the protocol's steps, whatever it is built of.
//
// A `Runner` means a cluster of the protocol. Its one call takes a step: it answers as the protocol defines, leaves
// the cluster that the protocol defines, and promises that a closed ledger keeps its word after every history that could
// have led there. `play` takes a list of steps and promises the same of the whole list.
#![tactic(auto)]

pub mod lists;
pub mod steps;

pub use lists::play;
pub use steps::Runner;
