// A bookie, whatever it is made of.
ghost use Rattle.std.specs.Prelude.{◌≡◌, true, false};
ghost use Rattle.protocol.specs.Bookies.{Bookie as Meaning, fence_answer, fence_after, read_answer, with_up};
ghost use Rattle.bookies.specs.Calls.{add_bytes_answer, add_bytes_after};

use ledgers::ids::{EntryId, Lac, LedgerId};
use messages::entries::Held;
use messages::faults::BookieFault;

pub trait Bookie {
    // The entries that it holds, in the order of their adding, whether each ledger is fenced, from ledger 1 on, how many
    // entries it can still take, and whether it is up.
    ghost means: { Self → Meaning };

    // Holds an entry with these bytes; only a recovery may add to a fenced ledger. One that is held with the same bytes
    // stays as it is. What is added is no struct: whoever calls has the parts, and would only put them together for this
    // call to take apart.
    fn add(
        &mut self,
        ledger: LedgerId,
        entry: EntryId,
        lac: Lac,
        body: &[u8],
        recovery: bool,
    ) -> Result<(), BookieFault>
        ensures answer { result ≡ add_bytes_answer (means self.old) ledger entry lac body.now recovery }
        ensures after { means self.new ≡ add_bytes_after (means self.old) ledger entry lac body.now recovery };

    // Fences a ledger for good, and answers the highest LAC among its entries.
    fn fence(&mut self, ledger: LedgerId) -> Result<Lac, BookieFault>
        ensures answer { result ≡ fence_answer (means self.old) ledger }
        ensures after { means self.new ≡ fence_after (means self.old) ledger };

    // The entry as it is held, with its LAC and body.
    fn read(&self, ledger: LedgerId, entry: EntryId) -> Result<Option<Held>, BookieFault>
        ensures { result ≡ read_answer (means self.now) ledger entry };

    fn stop(&mut self)
        ensures { means self.new ≡ with_up (means self.old) false };

    fn start(&mut self)
        ensures { means self.new ≡ with_up (means self.old) true };
}
