// Numbers by what they name. Any number can be asked for; whether it names something is a question that is put
// where the thing would be.
ghost use Rattle.std.specs.Prelude.{◌≡◌, ◌-◌, Some, None, if◌then◌else◌};
ghost use Rattle.ledgers.specs.Limits.{is_ledger, is_entry, is_recoverer};

// The ledgers that there can be are 1 to this number,
pub const MAX_LEDGERS: u32 = 16;
// the entries of each 0 to this number less one,
pub const MAX_ENTRIES: u32 = 10000;
// and the recoverers 1 to this number.
pub const MAX_RECOVERERS: u32 = 4;

// A ledger; those that there can be are 1 to 16.
#[derive(Clone, Copy, PartialEq, Eq, PartialOrd, Ord)]
pub struct LedgerId(pub u32);

// A bookie, numbered from 0.
#[derive(Clone, Copy, PartialEq, Eq, PartialOrd, Ord)]
pub struct BookieId(pub u32);

// A position of an ensemble, numbered from 0.
#[derive(Clone, Copy, PartialEq, Eq, PartialOrd, Ord)]
pub struct Position(pub u32);

// A recoverer; those that there are are 1 to 4.
#[derive(Clone, Copy, PartialEq, Eq, PartialOrd, Ord)]
pub struct RecovererId(pub u32);

// A place of the list of waiting messages, numbered from 0.
#[derive(Clone, Copy, PartialEq, Eq, PartialOrd, Ord)]
pub struct MessagePlace(pub u32);

// An entry of a ledger, numbered from 0; the last that there can be is 9,999.
#[derive(Clone, Copy, PartialEq, Eq, PartialOrd, Ord)]
pub struct EntryId(pub u32);

// How many entries come first: those numbered below. So it stands for the last of them, and 0 for no entry. The
// last add confirmed (LAC), the settled entry of a recovery and the closing entry of a ledger are kept like this.
#[derive(Clone, Copy, PartialEq, Eq, PartialOrd, Ord)]
pub struct Lac(pub u32);

// How often the metadata of a ledger was put: 1 when it is created.
#[derive(Clone, Copy, PartialEq, Eq, PartialOrd, Ord)]
pub struct Version(pub u32);

impl LedgerId {
    // Whether there can be such a ledger.
    pub fn is_in_range(self) -> bool
        ensures { result ≡ is_ledger self.0 }
    {
        (1..=MAX_LEDGERS).contains(&self.0)
    }

    // Its row in a table of all ledgers, if there can be such a ledger.
    pub fn row(self) -> Option<usize>
        ensures { result ≡ (if is_ledger self.0 then Some (self.0 - 1) else None) }
    {
        if self.is_in_range() {
            Some(self.0 as usize - 1)
        } else {
            None
        }
    }
}

impl EntryId {
    // Whether there can be such an entry.
    pub fn is_in_range(self) -> bool
        ensures { result ≡ is_entry self.0 }
    {
        self.0 < MAX_ENTRIES
    }
}

impl RecovererId {
    // Whether there is such a recoverer.
    pub fn is_in_range(self) -> bool
        ensures { result ≡ is_recoverer self.0 }
    {
        (1..=MAX_RECOVERERS).contains(&self.0)
    }
}
