// The bookies that a new ledger asks for, one for each position of its ensemble: at most five.
ghost use Rattle.std.specs.Prelude.{◌≡◌};
ghost use Rattle.ledgers.specs.BookieLists.{listed, by_position, made_list};

use places::short_lists::ShortList;

pub const MAX_ENSEMBLE: usize = 5;

#[derive(Clone, Copy, PartialEq, Eq)]
pub struct BookieList(ShortList<u32, MAX_ENSEMBLE>);

impl BookieList {
    // The list of these bookies; none where they are more than an ensemble has.
    pub fn new(numbers: &[u32]) -> Option<BookieList>
        ensures { result ≡ made_list numbers.now }
    {
        Some(BookieList(ShortList::from_slice(numbers)?))
    }

    // The numbers that count, by position.
    pub fn as_slice(&self) -> &[u32]
        ensures { result.now ≡ listed self.now }
    {
        self.0.as_slice()
    }

    // The numbers by position, with zeros behind them.
    pub fn by_position(&self) -> [u32; 5]
        ensures { result ≡ by_position self.now }
    {
        self.0.places()
    }
}
