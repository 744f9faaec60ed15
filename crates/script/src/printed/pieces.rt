// A printed line, piece by piece.
ghost use Rattle.std.specs.Prelude.{◌≡◌, ◌+◌, ◌<◌, ◌≤◌, [], ◌∷◌, ◌++◌, length, decimal};
ghost use Rattle.script.specs.Printed.{text_of};

use super::PrintedLine;
use crate::printing::OUTPUT_BYTES;
use itoa::write_digits;

impl PrintedLine {
    // No text yet.
    pub(crate) fn new() -> PrintedLine
        ensures { text_of result ≡ [] }
    {
        PrintedLine {
            room: [0; OUTPUT_BYTES],
            start: OUTPUT_BYTES,
        }
    }

    // Takes all of the text off.
    pub(crate) fn clear(&mut self)
        ensures { text_of self.new ≡ [] }
    {
        self.start = OUTPUT_BYTES;
    }

    // The bytes of the text.
    pub(crate) fn as_slice(&self) -> &[u8]
        ensures { result.now ≡ text_of self.now }
    {
        &self.room[self.start..]
    }

    // One byte more in front.
    pub(crate) fn put(&mut self, byte: u8)
        requires { length (text_of self.old) < 128 }
        ensures { text_of self.new ≡ byte ∷ text_of self.old }
    {
        let at = self.start - 1;
        self.room[at] = byte;
        self.start = at;
    }

    // The digits of a number in front.
    pub(crate) fn put_number(&mut self, number: u64)
        requires { length (text_of self.old) + 20 ≤ 128 }
        ensures digits { text_of self.new ≡ decimal number ++ text_of self.old }
        ensures long { length (text_of self.new) ≤ length (text_of self.old) + 20 }
    {
        self.start = write_digits(number, &mut self.room[..], self.start);
    }
}
