// Bookies in a journal: a file of bytes that says what the bookie holds.
//
// A journal bookie works over bytes that are lent to it. They are always exactly the bytes that are laid out for its
// entries and fences, zeros behind the free end included: this is a fact of its type (`journal`), and `promises`
// has that such bytes give back what they were laid out for. docs/JOURNAL.md has the file byte by byte. `bytes` has
// its numbers and records, `headers` what it begins with, `files` its reads and writes, `set_up` the way to a new journal
// bookie.
#![tactic(auto)]

pub mod bytes;
pub mod fences;
pub mod files;
pub mod headers;
pub mod journal;
pub mod promises;
pub mod set_up;
