// The texts of printed lines, each written from its end on. They are not written by `write!`, which may fail for all that it
// promises, where a line is always printed: tried, and the proof did not close.
ghost use Rattle.std.specs.Prelude.{◌≡◌, ◌<◌, ◌≤◌, ◌+◌, ◌++◌, length};
ghost use Rattle.script.specs.Printed.{text_of};
ghost use Rattle.script.specs.Printing.{letter_byte, number_of, value_bytes, answer_line, totals_line};

use crate::printed::PrintedLine;
use crate::refusals::Refusal;
use words::Letter;

// No printed line is longer.
pub const OUTPUT_BYTES: usize = 128;

// The answer to a line: its number, its letter, 0 or the refusal, and the value of the step or the word of the refusal.
pub(crate) fn print_answer(
    text: &mut PrintedLine,
    line: u64,
    letter: Option<Letter>,
    outcome: Result<i32, Refusal>,
)
    ensures { text_of text.new ≡ answer_line line letter outcome }
{
    text.clear();
    text.put(b'\n');
    put_value(text, outcome);
    text.put(b' ');
    text.put_number(u64::from(printed_refusal(&outcome)));
    text.put(b' ');
    text.put(printed_letter(letter));
    text.put(b' ');
    text.put_number(line);
}

// The last line: how many lines were played, and how many of them were refused.
pub(crate) fn print_totals(text: &mut PrintedLine, lines: u64, refused: u64)
    ensures { text_of text.new ≡ totals_line lines refused }
{
    text.clear();
    text.put(b'\n');
    text.put_number(refused);
    text.put(b' ');
    text.put_number(lines);
    text.put(b' ');
    text.put(b'=');
}

// A first word that is no letter of a step is printed as a question mark.
fn printed_letter(letter: Option<Letter>) -> u8
    ensures { result ≡ letter_byte letter }
{
    letter.map_or(b'?', u8::from)
}

fn printed_refusal(outcome: &Result<i32, Refusal>) -> u8
    ensures { result ≡ number_of outcome.now }
{
    match *outcome {
        Ok(_) => 0,
        Err(refusal) => u8::from(refusal),
    }
}

// The value of a step, or the word of a refusal.
fn put_value(text: &mut PrintedLine, outcome: Result<i32, Refusal>)
    requires { length (text_of text.old) + 21 ≤ 128 }
    ensures value { text_of text.new ≡ value_bytes outcome ++ text_of text.old }
    ensures long { length (text_of text.new) ≤ length (text_of text.old) + 21 }
{
    match outcome {
        Ok(value) => {
            text.put_number(u64::from(value.unsigned_abs()));
            if value < 0 {
                text.put(b'-');
            }
        }
        Err(refusal) => text.put_number(refusal.word() as u64),
    }
}
