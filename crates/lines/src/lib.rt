// Lines of a script, read as steps.
//
// A line is a letter and the words after it, parted by single spaces, with byte 10 at its end. `read_line` takes any
// bytes: it answers the step that the line asks for, or the question of form or of range that the line fails first, with
// the first word that by itself fails it.
#![tactic(auto)]

pub mod numbers;
pub mod reading;

pub use reading::{line_letter, read_line};
