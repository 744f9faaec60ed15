// Recoverers at work: how one begins, what it makes of a reply, what it asks the bookies, and how it closes its ledger.
//
// `begin` makes the recoverer of a ledger and `finish` closes the ledger once the recovery has ended; `Recovery` gives the
// protocol's recoverer its calls in between. A reply changes it in place, and where that leads it to another phase it sends
// that phase's requests. Replies of another ledger, entry or phase, and refusals, leave it as it is.
#![tactic(auto)]

pub mod asking;
pub mod closing;
pub mod hearing;
pub mod phases;
pub mod rounds;

pub use closing::{begin, finish};
pub use hearing::Recovery;
