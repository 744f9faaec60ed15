// What a make of bookie says of where it keeps things. It answers for any number, also for a ledger that there cannot be,
// and has nothing to refuse but an entry for which there is no space.
ghost use Rattle.std.specs.Prelude.{◌≡◌, true, Ok, nat_le};
ghost use Rattle.messages.specs.Faults.{question, when_ok};
ghost use Rattle.protocol.specs.Bookies.{Bookie, add_fits, find, is_fenced, highest_lac, holding, fencing, with_up};

use ledgers::ids::{EntryId, Lac, LedgerId};
use messages::entries::Held;
use messages::faults::BookieFault;

pub trait Storage {
    ghost means: { Self → Bookie };

    fn is_up(&self) -> bool
        ensures { result ≡ (means self.now).up };

    fn is_fenced(&self, ledger: LedgerId) -> bool
        ensures { result ≡ is_fenced (means self.now) ledger.0 };

    // The copy of an entry.
    fn copy_of(&self, ledger: LedgerId, number: EntryId) -> Option<Held>
        ensures { result ≡ find (means self.now).entries ledger.0 number.0 };

    // The highest LAC among the entries of a ledger.
    fn highest_lac(&self, ledger: LedgerId) -> Lac
        ensures { result.0 ≡ highest_lac (means self.now).entries ledger.0 };

    // Holds one entry more that there can be, if there is space for it.
    fn keep(&mut self, held: Held) -> Result<(), BookieFault>
        requires { add_fits held.ledger held.entry held.lac ≡ true }
        ensures answer { result ≡ question (nat_le 1 (means self.old).space) BookieFault.Full (Ok tt) }
        ensures after { means self.new ≡ when_ok result (holding (means self.old) held) (means self.old) };

    fn mark_fenced(&mut self, ledger: LedgerId)
        ensures { means self.new ≡ fencing (means self.old) ledger };

    // Starts the bookie, or stops it.
    fn turn(&mut self, up: bool)
        ensures { means self.new ≡ with_up (means self.old) up };
}
