// Why a line is refused: each refusal has a number, and names the first word that by itself fails the question, or 0.
ghost use Rattle.std.specs.Prelude.{◌≡◌};
ghost use Rattle.script.specs.Refusals.{refusal_number, refusal_word};
ghost use Rattle.script.specs.declared.refusals.Refusal.TheVariants.{Line as of_line};

use words::LineFault;

#[derive(Clone, Copy, PartialEq, Eq)]
pub enum Refusal {
    // The memory that was lent for the answer is too small for it.
    Output,
    // The line is no step.
    Line(LineFault),
    // What the word names is not there.
    Absent { word: usize },
}

// The number that a refusal is printed with.
impl From<Refusal> for u8 {
    ghost from_gives = { λ refusal number. number ≡ refusal_number refusal };

    fn from(refusal: Refusal) -> u8 {
        match refusal {
            Refusal::Output => 1,
            Refusal::Line(fault) => u8::from(fault),
            Refusal::Absent { .. } => 4,
        }
    }
}

impl Refusal {
    // The word that it is printed with. As that of a `LineFault` it is a number and no `Option`.
    pub fn word(self) -> usize
        ensures { result ≡ refusal_word self }
    {
        match self {
            Refusal::Output => 0,
            Refusal::Line(fault) => fault.word(),
            Refusal::Absent { word } => word,
        }
    }
}

impl From<LineFault> for Refusal {
    ghost from_gives = { λ fault r. r ≡ of_line fault };

    fn from(fault: LineFault) -> Refusal {
        Refusal::Line(fault)
    }
}
