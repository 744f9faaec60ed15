// The words of a line. They borrow from it, and know their place in it.
ghost use Rattle.std.specs.Prelude.{◌≡◌, ◌≤◌, length};
ghost use Rattle.std.specs.List.{prefix_len};
ghost use Rattle.words.specs.Numerals.{numeral};
ghost use Rattle.words.specs.Words.{inner, meant, number_or_text, word_at, first_of, after_first, letter_in, number_in, body_in, printable};

use crate::faults::LineFault;
use crate::letters::Letter;
use crate::numerals::read_number;
use ledgers::bodies::Body;

// Each kind has its place for itself: whoever matches on the kind has everything at hand that a refusal needs.
#[derive(Clone, Copy)]
pub enum Word<'a> {
    // One byte, in front of the line.
    Letter {
        letter: u8,
        place: usize,
    },
    // A number, with the digits that write it.
    Number {
        digits: &'a [u8],
        value: u32,
        place: usize,
    },
    // Any other bytes.
    Text {
        text: &'a [u8],
        place: usize,
    },
}

impl<'a> Word<'a> {
    // What these bytes are at this place.
    pub fn new(bytes: &'a [u8], place: usize) -> Word<'a>
        ensures { meant result ≡ word_at place bytes.now }
    {
        match bytes {
            [letter] if place == 0 => Word::Letter {
                letter: *letter,
                place,
            },
            _ => Word::number_or_text(bytes, place),
        }
    }

    // The same for what is no letter.
    fn number_or_text(bytes: &'a [u8], place: usize) -> Word<'a>
        ensures { meant result ≡ number_or_text place bytes.now (numeral bytes.now) }
    {
        match read_number(bytes) {
            Some(value) => Word::Number {
                digits: bytes,
                value,
                place,
            },
            None => Word::Text { text: bytes, place },
        }
    }

    // The letter that it is. Any other word has not the form of one.
    pub fn letter(self) -> Result<Letter, LineFault>
        ensures { result ≡ letter_in (meant self.entry) }
    {
        match self {
            Word::Letter { letter, place } => {
                Letter::try_from(letter).map_err(|_| LineFault::Form { word: place })
            }
            Word::Number { place, .. } | Word::Text { place, .. } => {
                Err(LineFault::Form { word: place })
            }
        }
    }

    // The number that it is. Any other word has not the form of one.
    pub fn number(self) -> Result<u32, LineFault>
        ensures { result ≡ number_in (meant self.entry) }
    {
        match self {
            Word::Number { value, .. } => Ok(value),
            Word::Letter { place, .. } | Word::Text { place, .. } => {
                Err(LineFault::Form { word: place })
            }
        }
    }

    // The content that it is. A text is in range where each byte can be printed and an entry can take them all.
    pub fn body(self) -> Result<Body, LineFault>
        ensures { result ≡ body_in (meant self.entry) }
    {
        match self {
            Word::Text { text, place } => match Body::new(text) {
                Some(body) if is_printable(text) => Ok(body),
                _ => Err(LineFault::Range { word: place }),
            },
            Word::Letter { place, .. } | Word::Number { place, .. } => {
                Err(LineFault::Form { word: place })
            }
        }
    }
}

// Whether each byte is one from the space to the tilde.
fn is_printable(text: &[u8]) -> bool
    ensures { result ≡ printable text.now }
{
    text.iter().all(|byte| matches!(byte, b' '..=b'~'))
}

// How many bytes stand before the first space.
fn word_length(text: &[u8]) -> usize
    ensures value { result ≡ prefix_len inner text.now }
    ensures within { result ≤ length text.now }
{
    text.iter().take_while(|byte| **byte != b' ').count()
}

// The first word, at the place that it has in its line, and what follows it: nothing, or a space and what that parts.
pub fn first_word<'a>(text: &'a [u8], place: usize) -> (Word<'a>, &'a [u8])
    ensures word { meant result.0 ≡ word_at place (first_of text.now) }
    ensures rest { result.1.now ≡ after_first text.now }
{
    let (front, rest) = text.split_at(word_length(text));
    (Word::new(front, place), rest)
}
