// The numbers of a line whose words after the letter are all numbers, and the step that they make.
ghost use Rattle.std.specs.Prelude.{◌≡◌, ◌+◌, ◌^◌, ◌<◌};
ghost use Rattle.lines.specs.Numbers.{no_numbers, with_number, numbers_from, more_words};
ghost use Rattle.lines.specs.Steps.{create_of, step_of};

use ledgers::bookie_lists::BookieList;
use ledgers::ids::{BookieId, LedgerId, MessagePlace, Position, RecovererId};
use ledgers::steps::Step;
use words::{Letter, LineFault, Word};

// A create has the most: ledger, three sizes and five bookies.
pub const MAX_NUMBERS: usize = 9;

#[derive(Clone, Copy)]
pub struct Numbers {
    // The first nine; zeros where there are fewer.
    pub values: [u32; MAX_NUMBERS],
    // How many words there are, also where they are more: it is no length of what is kept, as an array vector's would be.
    pub count: usize,
}

impl Numbers {
    // The numbers that the words write, or the first word that is no number. The bytes are what follows the letter.
    pub fn read(words: &[u8]) -> Result<Numbers, LineFault>
        ensures { result ≡ numbers_from no_numbers (more_words words.now) }
    {
        let mut numbers = Numbers {
            values: [0; MAX_NUMBERS],
            count: 0,
        };
        if words.is_empty() {
            return Ok(numbers);
        }
        for word in words[1..].split(|byte| *byte == b' ') {
            let word = Word::new(word, numbers.count + 1);
            numbers.push(word.number()?);
        }
        Ok(numbers)
    }

    // One number more. A tenth finds no place and is only counted.
    fn push(&mut self, value: u32)
        requires { self.old.count + 1 < 2 ^ 64 }
        ensures { self.new ≡ with_number self.old value }
    {
        if self.count < MAX_NUMBERS {
            self.values[self.count] = value;
        }
        self.count += 1;
    }

    // The step that the numbers make after a letter, if they are as many as it takes.
    pub fn step(&self, letter: Letter) -> Option<Step>
        ensures { result ≡ step_of letter self.now }
    {
        match (letter, self.values.get(..self.count)?) {
            (Letter::Create, [ledger, ensemble, write_quorum, ack_quorum, bookies @ ..])
                if !bookies.is_empty() => Some(Step::Create {
                ledger: LedgerId(*ledger),
                ensemble: *ensemble,
                write_quorum: *write_quorum,
                ack_quorum: *ack_quorum,
                bookies: BookieList::new(bookies)?,
            }),
            (Letter::ChangeEnsemble, [ledger, position, bookie]) => Some(Step::ChangeEnsemble {
                ledger: LedgerId(*ledger),
                position: Position(*position),
                bookie: BookieId(*bookie),
            }),
            (Letter::Recover, [recoverer, ledger]) => Some(Step::Recover {
                recoverer: RecovererId(*recoverer),
                ledger: LedgerId(*ledger),
            }),
            (_, [_]) => self.step_of_one(letter),
            _ => None,
        }
    }

    // The same, where there is one number.
    fn step_of_one(&self, letter: Letter) -> Option<Step>
        requires { self.now.count ≡ 1 }
        ensures { result ≡ step_of letter self.now }
    {
        let [number, ..] = self.values;
        let ledger = LedgerId(number);
        let recoverer = RecovererId(number);
        let message = MessagePlace(number);
        let bookie = BookieId(number);
        match letter {
            Letter::Resend => Some(Step::Resend { ledger }),
            Letter::Close => Some(Step::Close { ledger }),
            Letter::AskAgain => Some(Step::AskAgain { recoverer }),
            Letter::Finish => Some(Step::Finish { recoverer }),
            Letter::Deliver => Some(Step::Deliver { message }),
            Letter::Duplicate => Some(Step::Duplicate { message }),
            Letter::Discard => Some(Step::Discard { message }),
            Letter::Stop => Some(Step::Stop { bookie }),
            Letter::Start => Some(Step::Start { bookie }),
            _ => None,
        }
    }
}
