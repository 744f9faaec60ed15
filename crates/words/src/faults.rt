// Why a line is no step: the question that decides, with the first word that by itself fails it. The letter is word 0,
// which also stands where no word fails by itself, as in a line that has too few.
ghost use Rattle.std.specs.Prelude.{◌≡◌};
ghost use Rattle.words.specs.Faults.{line_number, line_word};

#[derive(Clone, Copy, PartialEq, Eq)]
pub enum LineFault {
    // It is not written as a line.
    Form { word: usize },
    // A number or a text is out of its range.
    Range { word: usize },
}

// The number that a refusal is printed with.
impl From<LineFault> for u8 {
    ghost from_gives = { λ fault number. number ≡ line_number fault };

    fn from(fault: LineFault) -> u8 {
        match fault {
            LineFault::Form { .. } => 2,
            LineFault::Range { .. } => 3,
        }
    }
}

impl LineFault {
    // The word that a refusal is printed with. No `Option`: 0 is itself a word that is printed, that of the letter, and stands
    // as well where no word fails by itself.
    pub fn word(self) -> usize
        ensures { result ≡ line_word self }
    {
        match self {
            LineFault::Form { word } | LineFault::Range { word } => word,
        }
    }
}
