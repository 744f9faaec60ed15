// Writers at work: how a ledger gets entries, how they are confirmed, and how the ledger is closed.
//
// `Writer` is the writer of one ledger, with the adds that it has pending. `absent` is the writer of a ledger that is not
// there, and `create` makes the ledger; `append` gives an entry its number and sends its adds; `reply` marks the position
// that acknowledged one and confirms entries in order; `resend`, `change_ensemble` and `close` do what they say. Each call
// answers, sends, puts and leaves what the protocol defines, and one that is refused alters nothing.
#![tactic(auto)]

pub mod writers;

pub use writers::Writer;
