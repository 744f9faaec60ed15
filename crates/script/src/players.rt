// A script that is being played: how many lines it has had, and how many of them were refused.
ghost use Rattle.std.specs.Prelude.{◌≡◌, ◌≤◌, length};
ghost use Rattle.script.specs.Printed.{text_of};
ghost use Rattle.script.specs.Printing.{over};
ghost use Rattle.script.specs.Playing.{absent_word, answer, new_player, counted, line_bytes, totals_bytes, LinePlayed, TotalsPrinted};

use crate::printed::PrintedLine;
use crate::printing::{OUTPUT_BYTES, print_answer, print_totals};
use crate::refusals::Refusal;
use ledgers::steps::Step;
use lines::{line_letter, read_line};

#[derive(Clone, Copy)]
pub struct Player {
    pub lines: u64,
    pub refused: u64,
}

impl Player {
    // Nothing is played yet.
    pub fn new() -> Player
        ensures { result ≡ new_player }
    {
        Player {
            lines: 0,
            refused: 0,
        }
    }

    // Plays one line and writes its answer, whose length is returned, into the front of `out`. Where `out` could be too
    // small for an answer, nothing is played or written.
    pub fn play_line(&mut self, line: &[u8], out: &mut [u8]) -> Result<usize, Refusal>
        ensures { LinePlayed self.old line.now out.old result self.new out.new }
    {
        if out.len() < OUTPUT_BYTES {
            return Err(Refusal::Output);
        }
        let mut text = PrintedLine::new();
        self.play(line, &mut text);
        Ok(put_front(out, text.as_slice()))
    }

    // Writes the last line of a script, with the counts.
    pub fn print_end(&self, out: &mut [u8]) -> Result<usize, Refusal>
        ensures { TotalsPrinted self.now out.old result out.new }
    {
        if out.len() < OUTPUT_BYTES {
            return Err(Refusal::Output);
        }
        let mut text = PrintedLine::new();
        self.totals(&mut text);
        Ok(put_front(out, text.as_slice()))
    }

    // Plays one line, and prints its answer into the text, in place of what it had. The text is lent, so that none is made and moved for
    // each line of a script.
    pub(crate) fn play(&mut self, line: &[u8], text: &mut PrintedLine)
        ensures player { self.new ≡ counted self.old line.now }
        ensures answer { text_of text.new ≡ line_bytes self.old line.now }
    {
        let outcome = answer_line(line);
        self.lines = self.lines.saturating_add(1);
        if outcome.is_err() {
            self.refused = self.refused.saturating_add(1);
        }
        print_answer(text, self.lines, line_letter(line), outcome);
    }

    // Prints the last line of a script, with the counts, in the same way.
    pub(crate) fn totals(&self, text: &mut PrintedLine)
        ensures { text_of text.new ≡ totals_bytes self.now }
    {
        print_totals(text, self.lines, self.refused);
    }
}

// Writes bytes over the front of `out`, and returns how many they are.
fn put_front(out: &mut [u8], bytes: &[u8]) -> usize
    requires { length bytes.now ≤ length out.old }
    ensures length { result ≡ length bytes.now }
    ensures after { out.new ≡ over bytes.now out.old }
{
    let (front, _) = out.split_at_mut(bytes.len());
    front.copy_from_slice(bytes);
    bytes.len()
}

// What a line is answered: what it names is not there, if it is a step at all.
pub fn answer_line(line: &[u8]) -> Result<i32, Refusal>
    ensures { result ≡ answer line.now }
{
    let step = read_line(line)?;
    Err(Refusal::Absent {
        word: first_absent(&step),
    })
}

// The first word of a step that names something: no ledger, client, message or bookie is there. A create names a ledger that
// is to be new, and a recovery a recoverer that is to be idle, so that these are passed over.
fn first_absent(step: &Step) -> usize
    ensures { result ≡ absent_word step.now }
{
    match *step {
        Step::Create { .. } => 5,
        Step::Recover { .. } => 2,
        _ => 1,
    }
}
