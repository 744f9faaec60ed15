// The thirteen letters that a line can begin with, by the step that each asks for.
ghost use Rattle.std.specs.Prelude.{◌≡◌};
ghost use Rattle.std.specs.Result.{result_ok};
ghost use Rattle.words.specs.Letters.{byte_of, letter_of};

#[derive(Clone, Copy, PartialEq, Eq)]
pub enum Letter {
    Create,
    Append,
    Resend,
    ChangeEnsemble,
    Close,
    Recover,
    AskAgain,
    Finish,
    Deliver,
    Duplicate,
    Discard,
    Stop,
    Start,
}

// What a byte that is no letter is refused with.
#[derive(Clone, Copy, PartialEq, Eq)]
pub struct UnknownLetter;

// The letter that a byte is, if it is one.
impl TryFrom<u8> for Letter {
    type Error = UnknownLetter;

    ghost try_from_gives = { λ byte r. result_ok r ≡ letter_of byte };

    fn try_from(byte: u8) -> Result<Letter, UnknownLetter> {
        match byte {
            b'C' => Ok(Letter::Create),
            b'A' => Ok(Letter::Append),
            b'R' => Ok(Letter::Resend),
            b'E' => Ok(Letter::ChangeEnsemble),
            b'Z' => Ok(Letter::Close),
            b'F' => Ok(Letter::Recover),
            b'G' => Ok(Letter::AskAgain),
            b'H' => Ok(Letter::Finish),
            b'D' => Ok(Letter::Deliver),
            b'K' => Ok(Letter::Duplicate),
            b'X' => Ok(Letter::Discard),
            b'S' => Ok(Letter::Stop),
            b'T' => Ok(Letter::Start),
            _ => Err(UnknownLetter),
        }
    }
}

// The byte that a letter is written as.
impl From<Letter> for u8 {
    ghost from_gives = { λ letter byte. byte ≡ byte_of letter };

    fn from(letter: Letter) -> u8 {
        match letter {
            Letter::Create => b'C',
            Letter::Append => b'A',
            Letter::Resend => b'R',
            Letter::ChangeEnsemble => b'E',
            Letter::Close => b'Z',
            Letter::Recover => b'F',
            Letter::AskAgain => b'G',
            Letter::Finish => b'H',
            Letter::Deliver => b'D',
            Letter::Duplicate => b'K',
            Letter::Discard => b'X',
            Letter::Stop => b'S',
            Letter::Start => b'T',
        }
    }
}
