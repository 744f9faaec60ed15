// The words of a script line: letters, numbers and texts, which borrow from the line and know their place in it.
//
// A word answers what it is, or the fault of a line in which something else had to stand there.
#![tactic(auto)]

pub mod faults;
pub mod letters;
pub mod numerals;
pub mod words;

pub use faults::LineFault;
pub use letters::{Letter, UnknownLetter};
pub use words::{Word, first_word};
