// Why a bookie, a store or a set-up refuses, and the numbers under which these refusals are known.
ghost use Rattle.std.specs.Prelude.{◌≡◌};
ghost use Rattle.messages.specs.Faults.{bookie_number, store_number, set_up_number};

// Why a bookie refuses, in the order of its questions: 20 to 24.
#[derive(Clone, Copy, PartialEq, Eq)]
pub enum BookieFault {
    // A ledger or an entry that there cannot be, or a LAC that is not below the entry.
    Range,
    // The bookie is stopped.
    Stopped,
    // The ledger is fenced, and the add is not a recovery's.
    Fenced,
    // The entry is held with another body.
    OtherBody,
    // No space is left.
    Full,
}

// Why a store refuses, in the order of its questions: 30 to 33.
#[derive(Clone, Copy, PartialEq, Eq)]
pub enum StoreFault {
    // A ledger that there cannot be.
    Range,
    // The ledger is not there, or, to create, is there already.
    Existence,
    // The metadata has another version than the one expected.
    Version,
    // No change is left.
    Full,
}

// Why nothing is set up: 15.
#[derive(Clone, Copy, PartialEq, Eq)]
pub enum SetUpFault {
    // The memory has a size that a journal cannot have.
    JournalSize,
    // There are more places than a chronicle takes.
    ChroniclePlaces,
}

impl From<BookieFault> for u32 {
    ghost from_gives = { λ fault number. number ≡ bookie_number fault };

    fn from(fault: BookieFault) -> u32 {
        match fault {
            BookieFault::Range => 20,
            BookieFault::Stopped => 21,
            BookieFault::Fenced => 22,
            BookieFault::OtherBody => 23,
            BookieFault::Full => 24,
        }
    }
}

impl From<StoreFault> for u32 {
    ghost from_gives = { λ fault number. number ≡ store_number fault };

    fn from(fault: StoreFault) -> u32 {
        match fault {
            StoreFault::Range => 30,
            StoreFault::Existence => 31,
            StoreFault::Version => 32,
            StoreFault::Full => 33,
        }
    }
}

impl From<SetUpFault> for u32 {
    ghost from_gives = { λ fault number. number ≡ set_up_number fault };

    fn from(fault: SetUpFault) -> u32 {
        match fault {
            SetUpFault::JournalSize => 15,
            SetUpFault::ChroniclePlaces => 15,
        }
    }
}
