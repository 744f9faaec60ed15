// A whole line, read as the step that it asks for.
ghost use Rattle.std.specs.Prelude.{◌≡◌};
ghost use Rattle.lines.specs.Writing.{LinesKeepSteps};
ghost use Rattle.lines.specs.Reading.{ended, text_of, in_range, ranges, first_letter, read_text, append_text, read_append, read_numbers, read_line};

use crate::numbers::Numbers;
use ledgers::ids::LedgerId;
use ledgers::steps::Step;
use words::{Letter, LineFault, Word, first_word};

// With the byte 10 at its end.
pub const MAX_LINE: usize = 80;

// The step that a line asks for. A line that is no step is refused, with the first word that by itself fails the question.
// The law that stands on it: what is written for a step is read as that step, no two steps are written alike, and no other
// line is read as a step.
pub fn read_line(line: &[u8]) -> Result<Step, LineFault>
    ensures value { result ≡ read_line line.now }
    ensures law { LinesKeepSteps }
{
    let (text, ended) = split_end(line);
    read_text(text, ended && line.len() <= MAX_LINE)
}

// The letter that a line begins with, whatever else is wrong with it.
pub fn line_letter(line: &[u8]) -> Option<Letter>
    ensures { result ≡ first_letter line.now }
{
    let (text, _) = split_end(line);
    let (first, _) = first_word(text, 0);
    first.letter().ok()
}

// What stands before the byte 10 at the end of a line, and whether it is there.
fn split_end(line: &[u8]) -> (&[u8], bool)
    ensures text { result.0.now ≡ text_of line.now }
    ensures ended { result.1 ≡ ended line.now }
{
    match line {
        [text @ .., b'\n'] => (text, true),
        _ => (line, false),
    }
}

// The step that the text of a line asks for. `fits` says whether the line is ended and no longer than a line may be. It is
// passed along, since it decides only once each word has the form of its kind, and before any range.
fn read_text(text: &[u8], fits: bool) -> Result<Step, LineFault>
    ensures { result ≡ read_text text.now fits }
{
    let (first, words) = first_word(text, 0);
    match first.letter()? {
        Letter::Append => read_append(words, fits),
        letter => read_numbers(letter, words, fits),
    }
}

// An append: a ledger, and all that stands behind the second space as its text.
fn read_append(words: &[u8], fits: bool) -> Result<Step, LineFault>
    ensures { result ≡ read_append fits words.now }
{
    if words.is_empty() {
        return Err(LineFault::Form { word: 0 });
    }
    let (word, rest) = first_word(&words[1..], 1);
    append_text(LedgerId(word.number()?), rest, fits)
}

// The text of an append stands behind its ledger, with a space before it.
fn append_text(ledger: LedgerId, rest: &[u8], fits: bool) -> Result<Step, LineFault>
    ensures { result ≡ append_text fits ledger.0 rest.now }
{
    match rest {
        [_, text @ ..] if fits => {
            in_range(ledger.is_in_range(), 1)?;
            let body = Word::Text { text, place: 2 }.body()?;
            Ok(Step::Append { ledger, body })
        }
        _ => Err(LineFault::Form { word: 0 }),
    }
}

// A step whose words are all numbers.
fn read_numbers(letter: Letter, words: &[u8], fits: bool) -> Result<Step, LineFault>
    ensures { result ≡ read_numbers letter fits words.now }
{
    let numbers = Numbers::read(words)?;
    match numbers.step(letter) {
        Some(step) if fits => {
            check_ranges(&step)?;
            Ok(step)
        }
        _ => Err(LineFault::Form { word: 0 }),
    }
}

// Refuses the first word that is out of its range. Numbers of ledgers and recoverers have one, all others are free.
fn check_ranges(step: &Step) -> Result<(), LineFault>
    ensures { result ≡ ranges step.now }
{
    match *step {
        Step::Create { ledger, .. }
        | Step::Append { ledger, .. }
        | Step::Resend { ledger }
        | Step::ChangeEnsemble { ledger, .. }
        | Step::Close { ledger } => in_range(ledger.is_in_range(), 1),
        Step::Recover { recoverer, ledger } => {
            in_range(recoverer.is_in_range(), 1)?;
            in_range(ledger.is_in_range(), 2)
        }
        Step::AskAgain { recoverer } | Step::Finish { recoverer } => {
            in_range(recoverer.is_in_range(), 1)
        }
        Step::Deliver { .. }
        | Step::Duplicate { .. }
        | Step::Discard { .. }
        | Step::Stop { .. }
        | Step::Start { .. } => Ok(()),
    }
}

// Refuses the word, unless it is in its range.
fn in_range(holds: bool, word: usize) -> Result<(), LineFault>
    ensures { result ≡ in_range holds word }
{
    if holds {
        Ok(())
    } else {
        Err(LineFault::Range { word })
    }
}
