// The rules of layouts and stores on examples: what one reads in `docs/STORES.md`, played on both stores. Nothing here is
// for use; the tests stand in a crate of their own, since a crate with tests is proved twice.
#![tactic(auto)]

#[cfg(test)]
mod layouts;
#[cfg(test)]
mod takeovers;
