// A memory bookie is set up, and is a bookie.
ghost use Rattle.std.specs.Prelude.{◌≡◌, length};
ghost use Rattle.protocol.specs.Bookies.{new_bookie};
ghost use Rattle.bookies.specs.Memory.{in_memory};

use super::MemoryBookie;
use crate::fences::{is_raised, raise};
use crate::searches::{find, highest};
use crate::storage::Storage;
use ledgers::ids::{EntryId, Lac, LedgerId};
use messages::entries::Held;
use messages::faults::BookieFault;
use places::lent_logs::LentLog;

impl<'a> MemoryBookie<'a> {
    // A new bookie that can take as many entries as there are records. They stay as they were: what they hold means nothing.
    pub fn new(records: &'a mut [Held]) -> Self
        ensures meaning { in_memory result ≡ new_bookie (length records.old) }
        ensures records { result.entries.places.now ≡ records.old }
    {
        MemoryBookie {
            entries: LentLog::new(records),
            fenced: [false; 16],
            up: true,
        }
    }
}

impl<'a> Storage for MemoryBookie<'a> {
    ghost means = { in_memory };

    fn is_up(&self) -> bool {
        self.up
    }

    fn is_fenced(&self, ledger: LedgerId) -> bool {
        is_raised(&self.fenced, ledger)
    }

    fn copy_of(&self, ledger: LedgerId, number: EntryId) -> Option<Held> {
        find(self.entries.as_slice().iter().copied(), ledger, number)
    }

    fn highest_lac(&self, ledger: LedgerId) -> Lac {
        highest(self.entries.as_slice().iter().copied(), ledger)
    }

    fn keep(&mut self, held: Held) -> Result<(), BookieFault> {
        if !self.entries.has_room() {
            return Err(BookieFault::Full);
        }
        self.entries.push(held);
        Ok(())
    }

    fn mark_fenced(&mut self, ledger: LedgerId) {
        raise(&mut self.fenced, ledger);
    }

    fn turn(&mut self, up: bool) {
        self.up = up;
    }
}
